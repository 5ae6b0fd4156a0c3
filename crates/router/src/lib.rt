// The router: what was commissioned, and the five calls of the crews.
#![tactic(auto)]

pub mod ordering;
pub mod router;
pub mod striking;
