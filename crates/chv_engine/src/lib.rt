//! The run: from words, a script and a site to statements that are answered and files that stand for their history.
#![tactic(auto)]

mod damage;
mod pull;
mod run;
mod say;
mod status;
mod top;
mod words;

pub use status::Status;
pub use top::chviews;
pub use words::{Command, Words, read_words};
