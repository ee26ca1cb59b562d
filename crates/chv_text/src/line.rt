// What is said to clients.
ghost use Rattle.std.specs.Prelude.{◌≡◌, ◌+◌, ◌≤◌, ◌++◌, length, decimal, codes};
ghost use Rattle.chv_text.specs.Replies.{ok_line, insert_line, rows_line, refused_line};

use chv_ast::Refusal;
use itoa::Buffer;
use std::marker::Model;

/// The room of a line. The longest line has 68 bytes.
pub const LINE_BYTES: usize = 80;

/// A line to a client, with the line feed that ends it. It takes no memory.
#[derive(Drop)]
pub struct Line {
    bytes: [u8; LINE_BYTES],
    len: usize,
}

impl Model for Line {
    ghost use Rattle.std.specs.Prelude.{ℕ, List, ◌≤◌, take};
    ghost use Rattle.chv_text.specs.declared.line.TheConstants.{LINE_BYTES};

    ghost Value = { List ℕ };

    ghost view = { λ line. take line.len line.bytes };

    ghost invariant = { λ line. line.len ≤ LINE_BYTES };
}

impl Line {
    /// The bytes of the line.
    pub fn as_slice(&self) -> &[u8]
        ensures bytes { result.now ≡ self.now }
        ensures short { length result.now ≤ LINE_BYTES }
    {
        &self.bytes[..self.len]
    }

    // A line that begins with the tag of its client.
    fn tagged(client: u8) -> Line
        ensures tag { result ≡ codes "@" ++ decimal client ++ codes " " }
        ensures len { length result ≤ 5 }
    {
        let mut line = Line {
            bytes: [0; LINE_BYTES],
            len: 0,
        };
        line.push(b"@");
        let mut digits = Buffer::new();
        line.push(digits.format(client).as_bytes());
        line.push(b" ");
        line
    }

    fn push(&mut self, text: &[u8])
        requires { length self.old + length text.now ≤ LINE_BYTES }
        ensures text { self.new ≡ self.old ++ text.now }
        ensures len { length self.new ≡ length self.old + length text.now }
    {
        let end = self.len + text.len();
        self.bytes[self.len..end].copy_from_slice(text);
        self.len = end;
    }

    fn push_number(&mut self, n: u64)
        requires { length self.old + 20 ≤ LINE_BYTES }
        ensures text { self.new ≡ self.old ++ decimal n }
        ensures len { length self.new ≤ length self.old + 20 }
    {
        let mut digits = Buffer::new();
        self.push(digits.format(n).as_bytes());
    }
}

/// Says that a statement is done.
pub fn line_ok(client: u8) -> Line
    ensures { result ≡ ok_line client }
{
    let mut line = Line::tagged(client);
    line.push(b"Ok.\n");
    line
}

/// Says that an insert is done: how many of its deliveries were written, and how many skipped.
pub fn line_insert(client: u8, written: u64, skipped: u64) -> Line
    ensures { result ≡ insert_line client written skipped }
{
    let mut line = Line::tagged(client);
    line.push(b"Ok. ");
    line.push_number(written);
    line.push(b" written, ");
    line.push_number(skipped);
    line.push(b" skipped\n");
    line
}

/// Says that a select is done: the number of its rows.
pub fn line_rows(client: u8, rows: u64) -> Line
    ensures { result ≡ rows_line client rows }
{
    let mut line = Line::tagged(client);
    line.push(b"Ok. ");
    line.push_number(rows);
    line.push(b" rows\n");
    line
}

/// Says that a statement is refused.
pub fn line_refused(client: u8, refusal: Refusal) -> Line
    ensures { result ≡ refused_line client refusal }
{
    let mut line = Line::tagged(client);
    line.push(b"Refused ");
    line.push_number(refusal.code() as u64);
    line.push(b" ");
    line.push(refusal.name().as_bytes());
    line.push(b"\n");
    line
}
