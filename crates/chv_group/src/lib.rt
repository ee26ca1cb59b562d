//! Rows by their keys, and what aggregate functions give over each group.
#![tactic(auto)]

mod call;
mod climbing;
mod grouping;
mod key_bytes;
mod key_names;
mod laws;
mod placed_key;
mod rows;
mod tallies;

pub use call::{AggCall, AggCalls, Keyed, KeyedRows};
pub use grouping::{Grouping, group};
pub use laws::{law_grouped_bag, law_grouped_collapse, law_groups};
