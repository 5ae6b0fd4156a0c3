// Reads an order from its line.
#![tactic(auto)]

pub mod agreeing;
mod key;
pub mod order;
pub mod reading;

pub use order::Order;
pub use reading::read_order;

#[cfg(test)]
mod tests;
