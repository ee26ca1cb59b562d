//! Prints statements as their canonical text.
#![tactic(auto)]

mod create;
mod expr;
mod insert;
mod list;
mod name;
mod select;
mod statement;

pub use create::{table_text, view_text};
pub use expr::expr_text;
pub use statement::statement_text;
