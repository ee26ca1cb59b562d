//! The outside of the store: a source of bytes, and a site with files and a console; and fakes of both in memory.
#![tactic(auto)]

mod call;
mod call_log;
mod copying;
mod fails;
mod fault;
mod file_id;
mod file_store;
mod mem_faults;
mod mem_file;
mod mem_site;
mod mem_source;
mod pick;
mod site;
mod source;

pub use fails::Fails;
pub use fault::Failed;
pub use file_id::{FIRST_PART, FileId};
pub use mem_site::MemSite;
pub use mem_source::MemSource;
pub use pick::Pick;
pub use site::Site;
pub use source::Source;
