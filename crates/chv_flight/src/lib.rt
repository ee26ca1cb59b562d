//! The run on an open store: requests that are answered, and files that stand for their history.
#![tactic(auto)]

mod answer;
mod client;
mod create;
mod deliver;
mod fault;
mod flight;
mod insert;
mod order;
mod parts;
mod planning;
mod room;
mod say;
mod select;
mod take;
mod turned;

pub use client::Client;
pub use fault::RunFault;
pub use flight::Flight;
pub use say::reply;
pub use take::Taken;
pub use turned::Turned;
