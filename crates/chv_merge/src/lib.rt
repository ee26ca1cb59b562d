//! Rows in the order in which a table keeps them, and the parts that become one.
#![tactic(auto)]

mod adjacent;
mod aggregating;
mod blocks;
mod column;
mod laws;
mod normal_form;
mod pick_laws;
mod picking;
mod run;

pub use blocks::merge_blocks;
pub use laws::{law_aggregated, law_normal_form, law_normal_form_of};
pub use normal_form::{normal, normal_by};
pub use pick_laws::law_picked;
pub use picking::pick;
pub use run::Run;
