//! What is said to clients: rows, and the lines that end replies.
#![tactic(auto)]

mod line;
mod rows;

pub use line::{Line, line_insert, line_ok, line_refused, line_rows};
pub use rows::rows_text;
