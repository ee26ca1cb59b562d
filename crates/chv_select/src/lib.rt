//! Answers to SELECT: a query is prepared, then answered over the rows of its table.
#![tactic(auto)]

mod answering;
mod preparing;

pub use answering::{Answered, answer};
pub use preparing::{Prepared, prepare};
