//! The store: the catalog's log and the files of all tables as one, changed by one commit at a time.
#![tactic(auto)]

mod catalog;
mod creating;
mod defining;
mod delivering;
mod fault;
mod opening;
mod reading;
mod rows;
mod store;

pub use fault::OpenFault;
pub use opening::open_store;
pub use reading::read;
pub use store::Store;
