// The marks of legs for halls, and the marked layer that shows a layout by them.
#![tactic(auto)]

pub mod marked;
pub mod marking;
pub mod words;
