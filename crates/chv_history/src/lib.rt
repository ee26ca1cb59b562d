//! Histories: what a store has, what happens to it, and what a crash leaves, as definitions with their laws.
#![tactic(auto)]

mod laws;
mod merge_blind;

pub use laws::{law_acknowledged, law_held, law_kept, law_retry, law_spaced, law_trace, law_whole};
pub use merge_blind::law_merge_blind;
