// What the divert board answers to a text.
#![tactic(auto)]

pub mod agreeing;
pub mod answering;
mod board;
mod carrying;
mod orders;
pub mod reply;
mod saying;
pub mod way;

pub use answering::answer;
pub use reply::Reply;
