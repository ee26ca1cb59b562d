// The tokens of a piece.
ghost use Rattle.std.specs.Prelude.{◌≡◌, ◌+◌, ◌^◌, ◌≤◌, ◌<◌, ℕ, List, length, take, drop, IfOk, IfErr};
ghost use Rattle.chv_lex.specs.Tokens as spec;

use crate::blank::blank_length;
use crate::spelling::token_length;
use chv_ast::TokenKind;
use sqlite_items::Items;
use std::alloc::{AllocError, Global};

/// A token of a piece, from a place up to another one, which does not count.
#[derive(Clone, Copy, Debug, PartialEq, Eq)]
pub struct Token {
    pub kind: TokenKind,
    pub start: usize,
    pub end: usize,
}

/// Why a piece was not read as tokens.
#[derive(Clone, Copy, Debug, PartialEq, Eq)]
pub enum LexFault {
    /// No token begins at this place of the piece, and all before it is read.
    BadToken { at: usize },
    NoMemory,
}

impl From<AllocError> for LexFault {
    ghost use Rattle.chv_lex.specs.declared.token.LexFault.TheVariants as fault;

    ghost from_gives = { λ _ e. e ≡ fault.NoMemory };

    fn from(_: AllocError) -> Self {
        LexFault::NoMemory
    }
}

/// Takes the white space, the comment or the token at the front of a text, which begins at this place of its piece, and
/// answers how many bytes it has. An `Err` leaves the tokens as they were.
fn take_front(tokens: &mut Items<Token>, at: usize, text: &[u8]) -> Result<usize, LexFault>
    requires some { 0 < length text.now }
    requires room { at + length text.now < 2 ^ 63 }
    ensures front { IfOk result (λ n. spec.Takes at text.now n tokens.old tokens.new) }
    ensures within { IfOk result (λ n. (0 < n) × (n ≤ length text.now)) }
    ensures bad { IfErr result (λ fault. spec.IsFaultAt at text.now fault) }
{
    let blank = blank_length(text);
    if blank > 0 {
        return Ok(blank);
    }
    match token_length(text) {
        Some((kind, length)) => {
            tokens.push(Token {
                kind,
                start: at,
                end: at + length,
            })?;
            Ok(length)
        }
        None => Err(LexFault::BadToken { at }),
    }
}

/// The tokens of a piece in order.
pub fn tokens(alloc: Global, piece: &[u8]) -> Result<Items<Token>, LexFault>
    ensures found { IfOk result (λ found. spec.Cut 0 piece.now found) }
    ensures only { (listed : List Token) → spec.Cut 0 piece.now listed → spec.GivesTokens listed result }
    ensures bad { IfErr result (λ fault. spec.IsFaultOf piece.now fault) }
    ensures stuck { (at : ℕ) → spec.Stuck 0 piece.now at → spec.GivesBadToken at result }
    ensures within { IfOk result (λ found. spec.AreSpaced 0 (length piece.now) found) }
{
    let mut tokens = Items::new(alloc);
    let mut at = 0;
    while at < piece.len() {
        let (_, text) = piece.split_at(at);
        at += take_front(&mut tokens, at, text)?;
    }
    Ok(tokens)
}
