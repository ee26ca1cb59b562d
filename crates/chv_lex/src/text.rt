// Texts in quotes.
ghost use Rattle.std.specs.Prelude.{◌≡◌, ◌≤◌, length};
ghost use Rattle.chv_lex.specs.Texts as spec;

/// Where a place behind the first quote of a text is.
#[derive(Clone, Copy, Debug)]
pub enum Within {
    /// Inside the text.
    Text,
    /// Behind a quote: the text has ended, unless another quote follows.
    Quote,
    /// Behind a backslash.
    Backslash,
}

/// How many bytes a text has behind its first quote, up to its closing quote and with it, or up to the end.
pub fn text_length(bytes: &[u8]) -> usize
    ensures value { result ≡ spec.text_length Within.Text bytes.now }
    ensures within { result ≤ length bytes.now }
{
    let mut within = Within::Text;
    for (at, byte) in bytes.iter().enumerate() {
        match within {
            Within::Text => within = next_in_text(*byte),
            Within::Quote => {
                if *byte != b'\'' {
                    return at;
                }
                within = Within::Text;
            }
            Within::Backslash => within = Within::Text,
        }
    }
    bytes.len()
}

/// Where the place behind this byte of a text is.
fn next_in_text(byte: u8) -> Within
    ensures { result ≡ spec.next_in_text byte }
{
    match byte {
        b'\'' => Within::Quote,
        b'\\' => Within::Backslash,
        _ => Within::Text,
    }
}

/// Whether these bytes are the rest of a text behind its first quote, with the closing one.
pub fn ends_text(bytes: &[u8]) -> bool
    ensures { result ≡ spec.ends_text Within.Text bytes.now }
{
    let mut within = Within::Text;
    for byte in bytes {
        match within {
            Within::Text => within = next_in_text(*byte),
            Within::Quote => {
                if *byte != b'\'' {
                    return false;
                }
                within = Within::Text;
            }
            Within::Backslash => {
                if !is_escape(*byte) {
                    return false;
                }
                within = Within::Text;
            }
        }
    }
    match within {
        Within::Quote => true,
        _ => false,
    }
}

/// What may stand behind a backslash.
#[tactic(auto, unfolding(crate::specs::Texts::is_escape))]
fn is_escape(byte: u8) -> bool
    ensures { result ≡ spec.is_escape byte }
{
    match byte {
        b'b' | b'f' | b'r' | b'n' | b't' | b'0' | b'\'' | b'\\' => true,
        _ => false,
    }
}
