//! The schema: the tables and views that stand, their names, and the paths along views; and what the statements that make tables and fill them check alike.
#![tactic(auto)]

mod definition;
mod fault;
mod kind;
mod link;
mod named;
mod names;
mod number;
mod paths;
mod schema;
mod table_def;
mod view_def;

pub use definition::Definition;
pub use fault::StatementFault;
pub use kind::is_state;
pub use link::Link;
pub use named::{Named, has_repeat, has_unknown, place, places_of};
pub use number::number_within;
pub use paths::{Path, Paths};
pub use schema::Schema;
pub use table_def::TableDef;
pub use view_def::ViewDef;
