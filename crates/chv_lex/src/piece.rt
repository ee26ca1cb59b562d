// Pieces of a script.
ghost use Rattle.std.specs.Prelude.{◌≡◌, ◌≤◌, length, option_map, IfSome};
ghost use Rattle.std.specs.Char.{is_ascii_digit};
ghost use Rattle.std.specs.List.{prefix_len};
ghost use Rattle.chv_lex.specs.Scripts as spec;

use crate::blank::behind_blanks;

/// A piece of a script, which holds more than white space, comments and a tag.
#[derive(Clone, Copy, Debug, PartialEq, Eq)]
pub struct Piece {
    /// The client that it belongs to, from 0 to 15.
    pub client: u8,
    /// The place in the script behind its tag; without a tag, the place where the piece begins.
    pub start: usize,
    /// The place of the `;` behind it, or the end of the script.
    pub end: usize,
}

/// A number, where it is a client's.
fn client(number: usize) -> Option<u8>
    ensures { result ≡ spec.client number }
{
    if number <= 15 {
        Some(number as u8)
    } else {
        None
    }
}

/// The client that one or two digits name.
fn client_of(digits: &[u8]) -> Option<u8>
    ensures { result ≡ spec.client_of digits.now }
{
    match digits {
        [ones] => client(ones.saturating_sub(b'0') as usize),
        [tens, ones] => client(
            10 * tens.saturating_sub(b'0') as usize + ones.saturating_sub(b'0') as usize,
        ),
        _ => None,
    }
}

/// How many digits stand at the front.
pub fn digits_length(bytes: &[u8]) -> usize
    ensures value { result ≡ prefix_len is_ascii_digit bytes.now }
    ensures within { result ≤ length bytes.now }
{
    let mut at = 0;
    while at < bytes.len() && bytes[at].is_ascii_digit() {
        at += 1;
    }
    at
}

/// The client that the tag at the front names, and what stands behind the tag.
fn tag_of(text: &[u8]) -> Option<(u8, &[u8])>
    ensures value { option_map (λ tag. (tag.0, tag.1.now)) result ≡ spec.tag_of text.now }
    ensures within { IfSome result (λ tag. length tag.1.now ≤ length text.now) }
{
    match text {
        [b'@', rest @ ..] => {
            let (digits, behind) = rest.split_at(digits_length(rest));
            match client_of(digits) {
                Some(client) => Some((client, behind)),
                None => None,
            }
        }
        _ => None,
    }
}

/// The piece of a client with these bytes, that ends at this place; none where they are white space and comments alone.
fn filled(end: usize, client: u8, bytes: &[u8]) -> Option<Piece>
    requires within { length bytes.now ≤ end }
    ensures value { result ≡ spec.filled end client bytes.now }
{
    if behind_blanks(bytes).is_empty() {
        return None;
    }
    Some(Piece {
        client,
        start: end - bytes.len(),
        end,
    })
}

/// The piece with these bytes, that ends at this place.
pub fn piece_of(end: usize, bytes: &[u8]) -> Option<Piece>
    requires within { length bytes.now ≤ end }
    ensures value { result ≡ spec.piece_of end bytes.now }
{
    match tag_of(behind_blanks(bytes)) {
        Some((client, behind)) => filled(end, client, behind),
        None => filled(end, 0, bytes),
    }
}
