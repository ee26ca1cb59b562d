//! Kinds, values, the order of values, and the texts that values are read from.
#![tactic(auto)]

mod aggregate;
mod block;
mod kind;
mod order;
mod seen;
mod table;
mod text;
mod value;

pub use aggregate::{AggForm, AggName, agg_named, result_kind};
pub use block::Block;
pub use kind::{Kind, Scalar, scalar_named, widens};
pub use order::{compare, compare_seen, law_members, law_order, law_order_within_kinds};
pub use seen::Seen;
pub use table::{Bytes, Column, Columns, Engine, Kinds, Places, Row};
pub use text::{MAX_TEXT, TextFault, parse_text, whole_number};
pub use value::{Value, default_value};
