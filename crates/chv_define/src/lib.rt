//! CREATE statements, checked against the schema.
#![tactic(auto)]

mod checks;
mod defined;
mod kinds;
mod outputs;
mod table;
mod view;

pub use defined::Defined;
pub use table::define;
pub use view::define_view;
