// Reads a plan from its text, line by line, into a draft.
#![tactic(auto)]

pub mod agreeing;
mod due;
mod entries;
mod head;
pub mod kind;
mod listener;
mod listening;
pub mod reading;
mod values;
