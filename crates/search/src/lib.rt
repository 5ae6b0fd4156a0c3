// The search for best ways over any layout.
#![tactic(auto)]

pub mod found;
mod frontier;
mod places;
mod queue;
mod queueing;
mod relaxing;
mod running;
pub mod searching;
pub mod slot;
mod stepping;
pub mod tables;
mod tracing;
mod way;

pub use found::Found;
pub use searching::{check_tables, explore, search};
pub use slot::Slot;
pub use tables::Tables;
