//! What statements mean, as definitions; and queries: what a SELECT asks of a table, bound to its columns, and what it gives
//! over rows.
#![tactic(auto)]

mod binding;
mod calls;
mod cells;
mod fault;
mod groups;
mod keys;
mod merge_blind;
mod order;
mod output;
mod query;
mod run;
mod running;
mod shape;
mod view;

pub use binding::bind;
pub use fault::BlockFault;
pub use groups::Groups;
pub use query::{Query, Sort};
pub use run::{run_block, run_rows};
pub use view::{ViewQuery, bind_view, run_view};
