// Nothing but tests: plans, loops and piles of layers over them.
#![tactic(auto)]

#[cfg(test)]
mod tests;
