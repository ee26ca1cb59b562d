//! Statements and expressions, read from their tokens.
#![tactic(auto)]

mod create;
mod cursor;
mod expr_reading;
mod fault;
mod insert;
mod laws;
mod listed;
mod operation;
mod select;
mod settings;
mod statements;
mod token_text;

pub use fault::ParseFault;
pub use laws::{law_one_tree, law_statement_in};
pub use statements::statement;
