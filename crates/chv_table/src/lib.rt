//! One table's files: its log of commits and its parts.
#![tactic(auto)]

mod discarding;
mod fault;
mod merging;
mod opening;
mod rows;
mod table;

pub use fault::{PutFault, TableFault};
pub use opening::{begin_table, open_table};
pub use table::{Delivered, Table};
