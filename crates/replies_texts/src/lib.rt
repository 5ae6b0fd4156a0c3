// Nothing but tests: sessions, and texts with orders, with the answers to them.
#![tactic(auto)]

#[cfg(test)]
mod sessions;
#[cfg(test)]
mod tests;
