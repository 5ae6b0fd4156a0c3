// Walks through a plant, the search for best ones, and the marks and orders that must not spoil it: the theory that search and router
// stand on. Each theorem holds for every measure, and is the contract of a function that does nothing else.
#![tactic(auto)]

pub mod crew;
pub mod marking;
pub mod searching;
pub mod weighing;

pub use weighing::weigh;
