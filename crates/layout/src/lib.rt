// What a layout is: its meaning, its limits, the questions it answers, and the refusals of every call.
#![tactic(auto)]

pub mod asking;
pub mod belt;
pub mod lent;
pub mod limits;
pub mod refusal;
