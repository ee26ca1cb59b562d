// How long the token at the front of a text is.
ghost use Rattle.std.specs.Prelude.{◌≡◌, ◌+◌, ◌^◌, ◌≤◌, ◌<◌, length, IfSome};
ghost use Rattle.std.specs.List.{prefix_len};
ghost use Rattle.chv_ast.specs.Words as words;
ghost use Rattle.chv_lex.specs.Spellings as signs_spec;
ghost use Rattle.chv_lex.specs.Reading as spec;

use crate::byte::{begins_with, begins_word, goes_on_as_word, is_word_byte};
use crate::piece::digits_length;
use crate::text::{ends_text, text_length};
use chv_ast::TokenKind;

/// The most bytes of a word, without backquotes.
const MAX_WORD: usize = 64;

/// How many bytes of a word stand at the front.
fn word_bytes(text: &[u8]) -> usize
    ensures value { result ≡ prefix_len words.is_word_byte text.now }
    ensures within { result ≤ length text.now }
{
    let mut at = 0;
    while at < text.len() && is_word_byte(text[at]) {
        at += 1;
    }
    at
}

/// How many bytes the word at the front has; none where there is none, or it is too long.
#[tactic(auto, unfolding(crate::specs::Reading::word_length))]
fn word_length(text: &[u8]) -> Option<usize>
    ensures value { result ≡ spec.word_length text.now }
    ensures within { IfSome result (λ n. n ≤ length text.now) }
{
    match text {
        [first, ..] => {
            let n = word_bytes(text);
            if begins_word(*first) && n <= MAX_WORD {
                Some(n)
            } else {
                None
            }
        }
        [] => None,
    }
}

/// How many bytes a word and a backquote have.
#[tactic(auto, unfolding(crate::specs::Reading::named_length))]
fn named_length(text: &[u8]) -> Option<usize>
    ensures value { result ≡ spec.named_length text.now }
    ensures within { IfSome result (λ n. n ≤ length text.now) }
{
    match word_length(text) {
        Some(n) => {
            let (_, behind) = text.split_at(n);
            if begins_with(b'`', behind) {
                Some(n + 1)
            } else {
                None
            }
        }
        None => None,
    }
}

/// How many digits stand at the front; none where a letter or `_` is behind them.
#[tactic(auto, unfolding(crate::specs::Reading::whole_length))]
fn whole_length(text: &[u8]) -> Option<usize>
    ensures value { result ≡ spec.whole_length text.now }
    ensures within { IfSome result (λ n. n ≤ length text.now) }
{
    let n = digits_length(text);
    let (_, behind) = text.split_at(n);
    if goes_on_as_word(behind) {
        None
    } else {
        Some(n)
    }
}

/// How many bytes the rest of a text has, with its closing quote.
#[tactic(auto, unfolding(crate::specs::Reading::quoted_length))]
fn quoted_length(text: &[u8]) -> Option<usize>
    ensures value { result ≡ spec.quoted_length text.now }
    ensures within { IfSome result (λ n. n ≤ length text.now) }
{
    let n = text_length(text);
    let (inside, _) = text.split_at(n);
    if ends_text(inside) { Some(n) } else { None }
}

/// Two bytes that are one sign.
#[tactic(auto, unfolding(crate::specs::Spellings::is_sign_pair))]
fn is_sign_pair(byte: u8, next: u8) -> bool
    ensures { result ≡ signs_spec.is_sign_pair byte next }
{
    match byte {
        b'=' | b'!' | b'>' => next == b'=',
        b'<' => next == b'=' || next == b'>',
        _ => false,
    }
}

/// A sign of one byte.
#[tactic(auto, unfolding(crate::specs::Spellings::is_sign_byte))]
fn is_sign_byte(byte: u8) -> bool
    ensures { result ≡ signs_spec.is_sign_byte byte }
{
    match byte {
        b'(' | b')' | b',' | b'=' | b'<' | b'>' | b'+' | b'-' | b'*' | b'%' => true,
        _ => false,
    }
}

/// How many bytes the longest sign at the front has; none where a comment begins there.
#[tactic(auto, unfolding(crate::specs::Reading::sign_length))]
fn sign_length(text: &[u8]) -> Option<usize>
    ensures value { result ≡ spec.sign_length text.now }
    ensures within { IfSome result (λ n. n ≤ length text.now) }
{
    match text {
        [] => None,
        [byte] => { if is_sign_byte(*byte) { Some(1) } else { None } }
        [byte, next, ..] => {
            if is_sign_pair(*byte, *next) {
                Some(2)
            } else if is_sign_byte(*byte) && !(*byte == b'-' && *next == b'-') {
                Some(1)
            } else {
                None
            }
        }
    }
}

/// A kind, and a length with some bytes more.
fn sized(kind: TokenKind, more: usize, length: Option<usize>) -> Option<(TokenKind, usize)>
    requires room { IfSome length (λ n. more + n < 2 ^ 64) }
    ensures { result ≡ spec.sized kind more length }
{
    match length {
        Some(n) => Some((kind, more + n)),
        None => None,
    }
}

/// The kind and the length of the token at the front.
#[tactic(auto, unfolding(crate::specs::Reading::token_length))]
pub fn token_length(text: &[u8]) -> Option<(TokenKind, usize)>
    ensures value { result ≡ spec.token_length text.now }
    ensures within { IfSome result (λ token. token.1 ≤ length text.now) }
{
    match text {
        [] => None,
        [b'\'', rest @ ..] => sized(TokenKind::Quoted, 1, quoted_length(rest)),
        [b'`', rest @ ..] => sized(TokenKind::Word, 1, named_length(rest)),
        [first, ..] => {
            if first.is_ascii_digit() {
                sized(TokenKind::Whole, 0, whole_length(text))
            } else if begins_word(*first) {
                sized(TokenKind::Word, 0, word_length(text))
            } else {
                sized(TokenKind::Sign, 0, sign_length(text))
            }
        }
    }
}
