//! SipHash-2-4, and the ids of blocks, which are made of it.
#![tactic(auto)]

mod below;
mod block_id;
mod laws;
mod sip;
mod state;

pub use below::Below;
pub use block_id::{BlockId, body_hash, id_of_content, id_of_token};
pub use laws::law_last_ids;
pub use sip::{Sip, sip24};
