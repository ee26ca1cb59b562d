// Statements, read from texts.
ghost use Rattle.std.specs.Prelude.{◌≡◌, IfOk};
ghost use Rattle.chv_parse.specs.StatementTexts.{statement_in};

use chv_ast::Statement;
use chv_lex::{LexFault, tokens};
use chv_parse::{ParseFault, statement};
use std::alloc::{AllocError, Global};

/// The statement that a text writes; None exactly where it has no tokens or they write none.
#[tactic(auto, using(crate::proofs::ReadingLemmas::read_uncut, crate::proofs::ReadingLemmas::read_written, crate::proofs::ReadingLemmas::read_unwritten))]
pub fn read(alloc: Global, text: &[u8]) -> Result<Option<Statement>, AllocError>
    ensures { IfOk result (λ read. read ≡ statement_in text.now) }
{
    let tokens = match tokens(alloc, text) {
        Ok(tokens) => tokens,
        Err(LexFault::BadToken { .. }) => return Ok(None),
        Err(LexFault::NoMemory) => return Err(AllocError),
    };
    match statement(alloc, text, &tokens) {
        Ok(statement) => Ok(Some(statement)),
        Err(ParseFault::Syntax) => Ok(None),
        Err(ParseFault::NoMemory) => Err(AllocError),
    }
}
