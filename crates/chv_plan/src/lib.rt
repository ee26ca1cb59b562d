//! INSERT statements: what they bring to their tables, and to those below views.
#![tactic(auto)]

mod below;
mod columns;
mod delivery;
mod ids;
mod insert;
mod literal;
mod row;
mod settings;
mod views;

pub use delivery::{Deliveries, Delivery, Plan};
pub use insert::plan_insert;
