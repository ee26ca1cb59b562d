//! Values and blocks in bytes: each has one spelling, and each spelling is of one value.
#![tactic(auto)]

mod block;
mod laws;
mod read;
mod size;
mod spell;
mod squasher;

pub use block::{block_bytes, put_kinds};
pub use laws::{
    law_block_reads_back, law_blocks_are_cut, law_blocks_keep_rows, law_row_reads_back,
    law_value_reads_back,
};
pub use read::read_value;
pub use size::row_size;
pub use spell::spell_value;
pub use squasher::{Sizes, Squasher};
