// A shift: a layout is commissioned, orders are carried out one after the other, and a tote is routed.
#![tactic(auto)]

pub mod keeping;
mod lending;
pub mod turn;
mod working;

pub use keeping::promise_kept_after;
