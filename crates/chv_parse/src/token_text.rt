// What one token of a piece stands for.
ghost use Rattle.std.specs.Prelude.{◌≡◌, IfOk, slice_range, take, drop, Option, option_map, false};
ghost use Rattle.chv_ast.specs.Lexemes.{is_keyword, is_word, is_sign, reserved, is_reserved, is_whole_kind, name_in, name_of, digits_of, text_of, escaped_byte, unquoted, without_zeros, without_last};
ghost use Rattle.chv_parse.specs.Reading.{is_name, has_zero};
ghost use Rattle.std.specs.List.{list_any};
ghost use Rattle.std.specs.Str.{str_eq_ignore_ascii_case};
ghost use Rattle.chv_ast.specs.GrammarStatements.{is_digits};
ghost use Rattle.chv_lex.specs.Lexemes.{lexeme};

use chv_ast::{Quoted, TokenKind};
use chv_lex::Token;
use sqlite_items::Items;
use std::alloc::{AllocError, Global};

// The bytes that a token is written with.
fn text(piece: &[u8], token: Token) -> &[u8]
    ensures { result.now ≡ slice_range piece.now token.start token.end }
{
    let (_, rest) = piece.split_at(usize::min(token.start, piece.len()));
    let (text, _) = rest.split_at(usize::min(token.end.saturating_sub(token.start), rest.len()));
    text
}

#[tactic(auto, unfolding(chv_ast::specs::Lexemes::is_keyword))]
pub fn is_keyword(piece: &[u8], token: Token, word: &[u8]) -> bool
    ensures { result ≡ is_keyword word.now (lexeme piece.now token) }
{
    match token.kind {
        TokenKind::Word => text(piece, token).eq_ignore_ascii_case(word),
        _ => false,
    }
}

#[tactic(auto, unfolding(chv_ast::specs::Lexemes::is_word))]
pub fn is_word(piece: &[u8], token: Token, word: &[u8]) -> bool
    ensures { result ≡ is_word word.now (lexeme piece.now token) }
{
    match token.kind {
        TokenKind::Word => text(piece, token) == word,
        _ => false,
    }
}

#[tactic(auto, unfolding(chv_ast::specs::Lexemes::is_sign))]
pub fn is_sign(piece: &[u8], token: Token, sign: &[u8]) -> bool
    ensures { result ≡ is_sign sign.now (lexeme piece.now token) }
{
    match token.kind {
        TokenKind::Sign => text(piece, token) == sign,
        _ => false,
    }
}

#[tactic(auto, unfolding(chv_ast::specs::GrammarStatements::is_digits))]
pub fn is_digits(piece: &[u8], token: Token, digits: &[u8]) -> bool
    ensures { result ≡ is_digits digits.now (lexeme piece.now token) }
{
    match token.kind {
        TokenKind::Whole => text(piece, token) == digits,
        _ => false,
    }
}

// Whether a word is among the first nine reserved words.
#[tactic(auto, unfolding(chv_ast::specs::Lexemes::reserved))]
fn is_in_first_half(word: &[u8]) -> bool
    ensures { result ≡ list_any (str_eq_ignore_ascii_case word.now) (take 9 reserved) }
{
    if word.eq_ignore_ascii_case(b"SELECT") {
        return true;
    }
    if word.eq_ignore_ascii_case(b"FROM") {
        return true;
    }
    if word.eq_ignore_ascii_case(b"FINAL") {
        return true;
    }
    if word.eq_ignore_ascii_case(b"WHERE") {
        return true;
    }
    if word.eq_ignore_ascii_case(b"GROUP") {
        return true;
    }
    if word.eq_ignore_ascii_case(b"ORDER") {
        return true;
    }
    if word.eq_ignore_ascii_case(b"BY") {
        return true;
    }
    if word.eq_ignore_ascii_case(b"LIMIT") {
        return true;
    }
    word.eq_ignore_ascii_case(b"AS")
}

// Whether a word is among the other nine.
#[tactic(auto, unfolding(chv_ast::specs::Lexemes::reserved))]
fn is_in_second_half(word: &[u8]) -> bool
    ensures { result ≡ list_any (str_eq_ignore_ascii_case word.now) (drop 9 reserved) }
{
    if word.eq_ignore_ascii_case(b"AND") {
        return true;
    }
    if word.eq_ignore_ascii_case(b"OR") {
        return true;
    }
    if word.eq_ignore_ascii_case(b"NOT") {
        return true;
    }
    if word.eq_ignore_ascii_case(b"ASC") {
        return true;
    }
    if word.eq_ignore_ascii_case(b"DESC") {
        return true;
    }
    if word.eq_ignore_ascii_case(b"SETTINGS") {
        return true;
    }
    if word.eq_ignore_ascii_case(b"VALUES") {
        return true;
    }
    if word.eq_ignore_ascii_case(b"TRUE") {
        return true;
    }
    word.eq_ignore_ascii_case(b"FALSE")
}

// Whether a word is reserved, in any letter case.
#[tactic(auto, unfolding(chv_ast::specs::Lexemes::is_reserved), using(crate::proofs::TokenTextLemmas::token_laws))]
fn is_reserved(word: &[u8]) -> bool
    ensures { result ≡ is_reserved word.now }
{
    is_in_first_half(word) || is_in_second_half(word)
}

// A text without its last byte.
#[tactic(auto, using(crate::proofs::TokenTextLemmas::token_laws))]
fn without_last(text: &[u8]) -> &[u8]
    ensures { result.now ≡ without_last text.now }
{
    let (front, _) = text.split_at(text.len().saturating_sub(1));
    front
}

// The name that a word's text stands for.
#[tactic(auto, unfolding(chv_ast::specs::Lexemes::name_in))]
fn name_in(text: &[u8]) -> Option<&[u8]>
    ensures { option_map (λ name. name.now) result ≡ name_in text.now }
{
    match text.split_first() {
        Some((96, rest)) => Some(without_last(rest)),
        _ => { if is_reserved(text) { None } else { Some(text) } }
    }
}

// The name that a token stands for.
#[tactic(auto, unfolding(chv_ast::specs::Lexemes::name_of))]
pub fn name_of(piece: &[u8], token: Token) -> Option<&[u8]>
    ensures { option_map (λ name. name.now) result ≡ name_of (lexeme piece.now token) }
{
    match token.kind {
        TokenKind::Word => name_in(text(piece, token)),
        _ => None,
    }
}

#[tactic(auto, unfolding(crate::specs::Reading::is_name))]
pub fn is_name(piece: &[u8], token: Token) -> bool
    ensures { result ≡ is_name (lexeme piece.now token) }
{
    name_of(piece, token).is_some()
}

// Whether digits begin with a zero that more digits follow.
fn has_zero(digits: &[u8]) -> bool
    ensures { result ≡ has_zero digits.now }
{
    match digits.split_first() {
        Some((48, rest)) => !rest.is_empty(),
        _ => false,
    }
}

// Decimal digits without leading zeros.
#[tactic(auto, using(crate::proofs::TokenTextLemmas::token_laws))]
fn without_zeros(text: &[u8]) -> &[u8]
    ensures { result.now ≡ without_zeros text.now }
{
    let mut digits = text;
    while has_zero(digits) {
        let (_, rest) = digits.split_at(usize::min(1, digits.len()));
        digits = rest;
    }
    digits
}

// The digits that a token stands for.
#[tactic(auto, unfolding(chv_ast::specs::Lexemes::digits_of))]
pub fn digits_of(piece: &[u8], token: Token) -> Option<&[u8]>
    ensures { option_map (λ digits. digits.now) result ≡ digits_of (lexeme piece.now token) }
{
    match token.kind {
        TokenKind::Whole => Some(without_zeros(text(piece, token))),
        _ => None,
    }
}

// The byte that a byte stands for behind a quote or a backslash.
fn escaped_byte(byte: u8) -> u8
    ensures { result ≡ escaped_byte byte }
{
    match byte {
        98 => 8,
        102 => 12,
        114 => 13,
        110 => 10,
        116 => 9,
        48 => 0,
        _ => byte,
    }
}

// The bytes that a quoted text stands for, from behind its first quote.
fn unquoted(alloc: Global, written: &[u8]) -> Result<Quoted, AllocError>
    ensures { IfOk result (λ meant. meant ≡ unquoted false written.now) }
{
    let mut meant = Items::new(alloc);
    let mut takes = false;
    for byte in written {
        if takes {
            meant.push(escaped_byte(*byte))?;
            takes = false;
        } else if *byte == 39 || *byte == 92 {
            takes = true;
        } else {
            meant.push(*byte)?;
        }
    }
    Ok(meant)
}

// The text that a token stands for.
#[tactic(auto, unfolding(chv_ast::specs::Lexemes::text_of))]
pub fn text_of(alloc: Global, piece: &[u8], token: Token) -> Result<Option<Quoted>, AllocError>
    ensures { IfOk result (λ read. read ≡ text_of (lexeme piece.now token)) }
{
    match token.kind {
        TokenKind::Quoted => {
            let written = text(piece, token);
            let (_, bytes) = written.split_at(usize::min(1, written.len()));
            Ok(Some(unquoted(alloc, bytes)?))
        }
        _ => Ok(None),
    }
}
