// The pieces of a script.
ghost use Rattle.std.specs.Prelude.{◌≡◌, ◌≤◌, ◌<◌, ◌∷◌, ◌++◌, length, take, IfOk, OnOk, option_to_list};
ghost use Rattle.std.specs.List.{All};
ghost use Rattle.chv_lex.specs.Scripts as spec;

use crate::Piece;
use crate::blank::comment_length;
use crate::piece::piece_of;
use crate::text::text_length;
use sqlite_items::Items;
use std::alloc::{AllocError, Global};

/// How many bytes stand up to the next backquote and with it, or up to the end.
fn name_length(bytes: &[u8]) -> usize
    ensures value { result ≡ spec.name_length bytes.now }
    ensures within { result ≤ length bytes.now }
{
    for (at, byte) in bytes.iter().enumerate() {
        if *byte == b'`' {
            return at + 1;
        }
    }
    bytes.len()
}

/// How many bytes at the front belong together: a text, a name, a comment, or else one byte.
#[tactic(auto, unfolding(crate::specs::Scripts::unit_length))]
fn unit_length(text: &[u8]) -> usize
    requires some { 0 < length text.now }
    ensures value { result ≡ spec.unit_length text.now }
    ensures within { result ≤ length text.now }
    ensures some { 0 < result }
{
    match text {
        [b'\'', rest @ ..] => 1 + text_length(rest),
        [b'`', rest @ ..] => 1 + name_length(rest),
        _ => comment_length(text).max(1),
    }
}

/// How many bytes the first piece has.
fn piece_length(text: &[u8]) -> usize
    ensures cut { spec.cut_from 0 text.now ≡ take result text.now ∷ spec.cut_behind result text.now }
    ensures within { result ≤ length text.now }
{
    let mut at = 0;
    while at < text.len() {
        let (_, rest) = text.split_at(at);
        if rest[0] == b';' {
            return at;
        }
        at += unit_length(rest);
    }
    at
}

/// Puts a piece behind the others, where there is one.
fn add(pieces: &mut Items<Piece>, piece: Option<Piece>) -> Result<(), AllocError>
    ensures added { OnOk result (pieces.new ≡ pieces.old ++ option_to_list piece) }
{
    match piece {
        Some(piece) => pieces.push(piece),
        None => Ok(()),
    }
}

/// The pieces of a script in order. A piece that holds only white space, comments and a tag is passed over.
pub fn cut_script(alloc: Global, text: &[u8]) -> Result<Items<Piece>, AllocError>
    ensures cut { IfOk result (λ pieces. pieces ≡ spec.pieces_of text.now) }
    ensures within { IfOk result (λ pieces. All (spec.IsPieceOf text.now) pieces) }
{
    let mut pieces = Items::new(alloc);
    let mut start = 0;
    while start <= text.len() {
        let (_, rest) = text.split_at(start);
        let length = piece_length(rest);
        let (bytes, _) = rest.split_at(length);
        add(&mut pieces, piece_of(start + length, bytes))?;
        start = start + length + 1;
    }
    Ok(pieces)
}
