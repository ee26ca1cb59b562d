//! Numbers and runs of bytes, as they stand in keys and files: little endian, and read back exactly.
#![tactic(auto)]

mod fixed;
mod integer;
mod laws;
mod run;

pub use fixed::{Fixed, fix, read_fixed, unfix};
pub use integer::{IntKind, put_int, read_int};
pub use laws::{
    law_bytes_of_number, law_integer_of_bytes, law_integer_reads_back, law_number_reads_back,
    law_one_integer, law_one_run, law_run_fits, law_run_reads_back,
};
pub use run::{put_run, read_run};
