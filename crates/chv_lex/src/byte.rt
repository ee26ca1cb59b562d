// Classes of bytes.
ghost use Rattle.std.specs.Prelude.{◌≡◌, ◌==◌};
ghost use Rattle.chv_ast.specs.Words as words;
ghost use Rattle.chv_lex.specs.Bytes as spec;

/// A space, a tab, a line feed or a carriage return.
#[tactic(auto, unfolding(crate::specs::Bytes::is_white))]
pub fn is_white(byte: u8) -> bool
    ensures { result ≡ spec.is_white byte }
{
    byte == b' ' || byte == b'\t' || byte == b'\n' || byte == b'\r'
}

/// A letter or `_`.
pub fn begins_word(byte: u8) -> bool
    ensures { result ≡ words.begins_word byte }
{
    byte.is_ascii_alphabetic() || byte == b'_'
}

/// A letter, a digit or `_`.
pub fn is_word_byte(byte: u8) -> bool
    ensures { result ≡ words.is_word_byte byte }
{
    byte.is_ascii_alphanumeric() || byte == b'_'
}

/// Whether this is the first byte.
pub fn begins_with(byte: u8, bytes: &[u8]) -> bool
    ensures { result ≡ spec.begins (λ first. first == byte) bytes.now }
{
    match bytes {
        [first, ..] => *first == byte,
        [] => false,
    }
}

/// Whether a word goes on with the first byte.
pub fn goes_on_as_word(bytes: &[u8]) -> bool
    ensures { result ≡ spec.begins words.is_word_byte bytes.now }
{
    match bytes {
        [first, ..] => is_word_byte(*first),
        [] => false,
    }
}
