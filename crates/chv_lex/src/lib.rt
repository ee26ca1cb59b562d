//! Cuts a script into pieces, and a piece into tokens.
#![tactic(auto)]

mod blank;
mod byte;
mod laws;
mod piece;
mod script;
mod spelling;
mod text;
mod token;

pub use laws::{law_tokens_of, law_written_is_formed};
pub use piece::Piece;
pub use script::cut_script;
pub use token::{LexFault, Token, tokens};
