// Which halls are in force, with the marks of each, and how halls lapse.
#![tactic(auto)]

pub mod force;
pub mod lapsing;
