// A plan that is drawn: the draft that takes junctions and legs, and the plan that it becomes, a layout.
#![tactic(auto)]

pub mod chains;
pub mod draft;
pub mod drawing;
pub mod entering;
pub mod planned;
pub mod tables;
