// Takes a text apart: into lines, a line into its key and its values, and a value into the number or the letter that it writes.
// It knows nothing of what the lines mean.
#![tactic(auto)]

mod cut;
mod line;
mod numeral;
mod values;

pub use cut::next_line;
pub use line::{Due, Line, Token};
pub use values::{Values, split_key};

#[cfg(test)]
mod tests;
