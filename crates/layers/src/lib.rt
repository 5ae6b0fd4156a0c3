// Layers that go over a layout, the turned layer and the day sheet: each is a layout again, and can be taken off.
#![tactic(auto)]

pub mod daily;
pub mod day;
pub mod entries;
mod reading;
pub mod sheet;
pub mod turned;
