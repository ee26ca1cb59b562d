//! The ids of the last blocks of a table.
#![tactic(auto)]

mod window;

pub use window::Window;
