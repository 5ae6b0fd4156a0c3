// Nothing but tests: searches over small plants, by all three measures.
#![tactic(auto)]

#[cfg(test)]
mod tests;
