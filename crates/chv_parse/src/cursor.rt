// The tokens of a piece that are still to be read.
ghost use Rattle.std.specs.Prelude.{◌≡◌, ◌+◌, ◌==◌, drop, length};
ghost use Rattle.chv_ast.specs.Lexemes.{is_keyword, is_word, is_sign, name_of, digits_of, text_of, is_whole_kind, is_quoted_kind};
ghost use Rattle.chv_ast.specs.GrammarStatements.{is_digits};
ghost use Rattle.chv_lex.specs.Lexemes.{lexemes};
ghost use Rattle.chv_parse.specs.Reading.{Reads, marked, meant, next_is, is_name};

use crate::{ParseFault, token_text};
use chv_ast::{Digits, Name, Quoted, TokenKind};
use chv_lex::Token;
use sqlite_items::Items;
use std::alloc::Global;
use std::marker::Model;

/// The tokens of a piece from one of them on, with the piece.
#[derive(Drop)]
pub struct Cursor<'a> {
    piece: &'a [u8],
    tokens: &'a [Token],
}

impl<'a> Model for Cursor<'a> {
    ghost use Rattle.std.specs.Prelude.{List};
    ghost use Rattle.chv_ast.specs.Lexemes.{Lexeme};
    ghost use Rattle.chv_lex.specs.Lexemes.{lexemes};

    ghost Value = { List Lexeme };

    ghost view = { λ c. lexemes c.piece.now c.tokens.now };
}

impl<'a> Cursor<'a> {
    /// The tokens of a piece from the first on.
    pub fn new(piece: &'a [u8], tokens: &'a [Token]) -> Cursor<'a>
        ensures { result ≡ lexemes piece.now tokens.now }
    {
        Cursor { piece, tokens }
    }

    /// One more than there are tokens.
    pub fn count(&self) -> usize
        ensures { result ≡ length self.now + 1 }
    {
        self.tokens.len() + 1
    }

    /// Whether no token is left.
    pub fn is_at_end(&self) -> bool
        ensures { result ≡ (length self.now == 0) }
    {
        self.tokens.is_empty()
    }

    /// Passes over the next token.
    pub fn pass(&mut self)
        ensures { self.new ≡ drop 1 self.old }
    {
        if let Some((_, behind)) = self.tokens.split_first() {
            self.tokens = behind;
        }
    }

    /// Whether a keyword comes next.
    #[tactic(auto, unfolding(crate::specs::Reading::next_is))]
    pub fn next_is_keyword(&self, word: &[u8]) -> bool
        ensures { result ≡ next_is (is_keyword word.now) self.now }
    {
        match self.tokens.first() {
            Some(token) => token_text::is_keyword(self.piece, *token, word),
            None => false,
        }
    }

    /// Whether a word comes next, letter by letter.
    #[tactic(auto, unfolding(crate::specs::Reading::next_is))]
    pub fn next_is_word(&self, letters: &[u8]) -> bool
        ensures { result ≡ next_is (is_word letters.now) self.now }
    {
        match self.tokens.first() {
            Some(token) => token_text::is_word(self.piece, *token, letters),
            None => false,
        }
    }

    /// Whether a sign comes next.
    #[tactic(auto, unfolding(crate::specs::Reading::next_is))]
    pub fn next_is_sign(&self, sign: &[u8]) -> bool
        ensures { result ≡ next_is (is_sign sign.now) self.now }
    {
        match self.tokens.first() {
            Some(token) => token_text::is_sign(self.piece, *token, sign),
            None => false,
        }
    }

    /// Whether just these digits come next.
    #[tactic(auto, unfolding(crate::specs::Reading::next_is))]
    pub fn next_is_digits(&self, digits: &[u8]) -> bool
        ensures { result ≡ next_is (is_digits digits.now) self.now }
    {
        match self.tokens.first() {
            Some(token) => token_text::is_digits(self.piece, *token, digits),
            None => false,
        }
    }

    /// Whether a name comes next.
    #[tactic(auto, unfolding(crate::specs::Reading::next_is))]
    pub fn next_is_name(&self) -> bool
        ensures { result ≡ next_is is_name self.now }
    {
        match self.tokens.first() {
            Some(token) => token_text::is_name(self.piece, *token),
            None => false,
        }
    }

    /// Whether a text in quotes comes next.
    #[tactic(auto, unfolding(crate::specs::Reading::next_is))]
    pub fn next_is_quoted(&self) -> bool
        ensures { result ≡ next_is (λ token. is_quoted_kind token.kind) self.now }
    {
        match self.tokens.first() {
            Some(token) => match token.kind {
                TokenKind::Quoted => true,
                _ => false,
            },
            None => false,
        }
    }

    /// Reads a keyword, in any letter case.
    #[tactic(auto, unfolding(crate::specs::Reading::next_is, crate::specs::Reading::marked))]
    pub fn keyword(&mut self, word: &[u8]) -> Result<(), ParseFault>
        ensures { Reads (marked (is_keyword word.now)) self.old result self.new }
    {
        if self.next_is_keyword(word) {
            self.pass();
            Ok(())
        } else {
            Err(ParseFault::Syntax)
        }
    }

    /// Reads a word, letter by letter.
    #[tactic(auto, unfolding(crate::specs::Reading::next_is, crate::specs::Reading::marked))]
    pub fn word(&mut self, letters: &[u8]) -> Result<(), ParseFault>
        ensures { Reads (marked (is_word letters.now)) self.old result self.new }
    {
        if self.next_is_word(letters) {
            self.pass();
            Ok(())
        } else {
            Err(ParseFault::Syntax)
        }
    }

    /// Reads a sign.
    #[tactic(auto, unfolding(crate::specs::Reading::next_is, crate::specs::Reading::marked))]
    pub fn sign(&mut self, sign: &[u8]) -> Result<(), ParseFault>
        ensures { Reads (marked (is_sign sign.now)) self.old result self.new }
    {
        if self.next_is_sign(sign) {
            self.pass();
            Ok(())
        } else {
            Err(ParseFault::Syntax)
        }
    }

    /// Reads just these digits.
    #[tactic(auto, unfolding(crate::specs::Reading::next_is, crate::specs::Reading::marked))]
    pub fn digits(&mut self, digits: &[u8]) -> Result<(), ParseFault>
        ensures { Reads (marked (is_digits digits.now)) self.old result self.new }
    {
        if self.next_is_digits(digits) {
            self.pass();
            Ok(())
        } else {
            Err(ParseFault::Syntax)
        }
    }

    /// Reads a name.
    #[tactic(auto, unfolding(crate::specs::Reading::meant))]
    pub fn name(&mut self, alloc: Global) -> Result<Name, ParseFault>
        ensures { Reads (meant name_of) self.old result self.new }
    {
        match self.tokens.first() {
            Some(token) => match token_text::name_of(self.piece, *token) {
                Some(bytes) => {
                    let read = Items::from_slice(alloc, bytes)?;
                    self.pass();
                    Ok(read)
                }
                None => Err(ParseFault::Syntax),
            },
            None => Err(ParseFault::Syntax),
        }
    }

    /// Reads digits.
    #[tactic(auto, unfolding(crate::specs::Reading::meant))]
    pub fn whole(&mut self, alloc: Global) -> Result<Digits, ParseFault>
        ensures { Reads (meant digits_of) self.old result self.new }
    {
        match self.tokens.first() {
            Some(token) => match token_text::digits_of(self.piece, *token) {
                Some(bytes) => {
                    let read = Items::from_slice(alloc, bytes)?;
                    self.pass();
                    Ok(read)
                }
                None => Err(ParseFault::Syntax),
            },
            None => Err(ParseFault::Syntax),
        }
    }

    /// Reads a text in quotes.
    #[tactic(auto, unfolding(crate::specs::Reading::meant))]
    pub fn quoted(&mut self, alloc: Global) -> Result<Quoted, ParseFault>
        ensures { Reads (meant text_of) self.old result self.new }
    {
        match self.tokens.first() {
            Some(token) => match token_text::text_of(alloc, self.piece, *token)? {
                Some(read) => {
                    self.pass();
                    Ok(read)
                }
                None => Err(ParseFault::Syntax),
            },
            None => Err(ParseFault::Syntax),
        }
    }

    /// Whether a name comes behind the next token.
    #[tactic(auto, unfolding(crate::specs::Reading::next_is))]
    pub fn second_is_name(&self) -> bool
        ensures { result ≡ next_is is_name (drop 1 self.now) }
    {
        match self.tokens.split_first() {
            Some((_, behind)) => next_is_name(self.piece, behind),
            None => false,
        }
    }

    /// Whether a keyword comes behind the next token.
    #[tactic(auto, unfolding(crate::specs::Reading::next_is))]
    pub fn second_is_keyword(&self, word: &[u8]) -> bool
        ensures { result ≡ next_is (is_keyword word.now) (drop 1 self.now) }
    {
        match self.tokens.split_first() {
            Some((_, behind)) => next_is_keyword(self.piece, behind, word),
            None => false,
        }
    }

    /// Whether a sign comes behind the next token.
    #[tactic(auto, unfolding(crate::specs::Reading::next_is))]
    pub fn second_is_sign(&self, sign: &[u8]) -> bool
        ensures { result ≡ next_is (is_sign sign.now) (drop 1 self.now) }
    {
        match self.tokens.split_first() {
            Some((_, behind)) => next_is_sign(self.piece, behind, sign),
            None => false,
        }
    }
}

// Whether the first of the tokens is a name.
#[tactic(auto, unfolding(crate::specs::Reading::next_is))]
fn next_is_name(piece: &[u8], tokens: &[Token]) -> bool
    ensures { result ≡ next_is is_name (lexemes piece.now tokens.now) }
{
    match tokens.first() {
        Some(token) => token_text::is_name(piece, *token),
        None => false,
    }
}

// Whether the first of the tokens is a keyword.
#[tactic(auto, unfolding(crate::specs::Reading::next_is))]
fn next_is_keyword(piece: &[u8], tokens: &[Token], word: &[u8]) -> bool
    ensures { result ≡ next_is (is_keyword word.now) (lexemes piece.now tokens.now) }
{
    match tokens.first() {
        Some(token) => token_text::is_keyword(piece, *token, word),
        None => false,
    }
}

// Whether the first of the tokens is a sign.
#[tactic(auto, unfolding(crate::specs::Reading::next_is))]
fn next_is_sign(piece: &[u8], tokens: &[Token], sign: &[u8]) -> bool
    ensures { result ≡ next_is (is_sign sign.now) (lexemes piece.now tokens.now) }
{
    match tokens.first() {
        Some(token) => token_text::is_sign(piece, *token, sign),
        None => false,
    }
}
