// Renewing a hall's marks.
#![tactic(auto)]

mod asking;
mod best;
mod marking;
pub mod renewing;

pub use renewing::renew;
