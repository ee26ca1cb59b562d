// White space and comments.
ghost use Rattle.std.specs.Prelude.{◌≡◌, ◌≤◌, length};
ghost use Rattle.chv_lex.specs.Blanks as spec;

use crate::byte::{begins_with, is_white};

/// How many bytes a line has up to its line feed, or up to the end.
fn line_length(bytes: &[u8]) -> usize
    ensures value { result ≡ spec.line_length bytes.now }
    ensures within { result ≤ length bytes.now }
{
    let mut at = 0;
    while at < bytes.len() && bytes[at] != b'\n' {
        at += 1;
    }
    at
}

/// How many bytes stand up to the next `*/` and with it, or up to the end.
fn block_length(bytes: &[u8]) -> usize
    ensures value { result ≡ spec.block_length bytes.now }
    ensures within { result ≤ length bytes.now }
{
    for (at, byte) in bytes.iter().enumerate() {
        if *byte == b'*' && begins_with(b'/', &bytes[at + 1..]) {
            return at + 2;
        }
    }
    bytes.len()
}

/// How many bytes the comment at the front has, and 0 where none stands there.
#[tactic(auto, unfolding(crate::specs::Blanks::comment_length))]
pub fn comment_length(text: &[u8]) -> usize
    ensures value { result ≡ spec.comment_length text.now }
    ensures within { result ≤ length text.now }
{
    match text {
        [b'-', b'-', line @ ..] => 2 + line_length(line),
        [b'/', b'*', block @ ..] => 2 + block_length(block),
        _ => 0,
    }
}

/// How many bytes the white space or the comment at the front has, and 0 where none stands there.
pub fn blank_length(text: &[u8]) -> usize
    ensures value { result ≡ spec.blank_length text.now }
    ensures within { result ≤ length text.now }
{
    match text {
        [first, ..] => {
            if is_white(*first) {
                1
            } else {
                comment_length(text)
            }
        }
        [] => 0,
    }
}

/// What stands behind the white space and comments at the front.
pub fn behind_blanks(mut text: &[u8]) -> &[u8]
    ensures value { result.now ≡ spec.behind_blanks 0 text.entry.now }
    ensures within { length result.now ≤ length text.entry.now }
{
    loop {
        let length = blank_length(text);
        if length == 0 {
            return text;
        }
        let (_, behind) = text.split_at(length);
        text = behind;
    }
}
