// A sorter loop: a layout that is computed and keeps no table of legs.
#![tactic(auto)]

pub mod looped;
pub mod ring;
