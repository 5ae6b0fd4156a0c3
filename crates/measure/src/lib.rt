// Measures: what a way through the plant is measured by, and the three kinds that are delivered.
#![tactic(auto)]

pub mod figures;
pub mod kinds;
pub mod measure;
pub mod printing;
pub mod ranking;
pub mod totals;

pub use figures::Figures;
pub use measure::Measure;
pub use printing::Printing;
pub use ranking::compare;
pub use totals::{Headroom, Tenths, TimeTurns};

#[cfg(test)]
mod tests;
