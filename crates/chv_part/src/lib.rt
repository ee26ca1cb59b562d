//! Parts: files of rows that are written once and never changed.
#![tactic(auto)]

mod damage;
mod encoding;
mod laws;
mod reading;
mod writing;

pub use damage::Damage;
pub use encoding::encode_part;
pub use laws::{law_lawful_books, law_merged_books, law_part_reads_back};
pub use reading::{PartFault, read_part};
pub use writing::write_part;
