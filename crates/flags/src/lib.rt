// Nothing but tests: marks that are renewed, and halls that lapse.
#![tactic(auto)]

#[cfg(test)]
mod tests;
