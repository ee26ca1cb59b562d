//! Gate logs: files of frames, each of which a crash leaves whole or not at all.
#![tactic(auto)]

mod beginning;
mod fault;
mod framing;
mod log;
mod reading;
mod writing;

pub use beginning::begin;
pub use fault::GateFault;
pub use framing::frame;
pub use log::Log;
pub use reading::{GateRead, step};
