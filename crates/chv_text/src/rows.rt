// Rows as they are said to clients.
ghost use Rattle.std.specs.Prelude.{◌≡◌, ◌<◌, [], ◌∷◌, ◌++◌, codes, IfOk, IfSome, IsNone, OnOk};
ghost use Rattle.std.specs.List.{flat_map, join_by, zip};
ghost use Rattle.chv_text.specs.Rows.{cell_text, escaped, hex_byte, hex_digit, truth_text, value_text, row_text, rows_text};

use chv_types::{Block, Bytes, Kind, Kinds, Value};
use itoa::Buffer;
use std::alloc::{AllocError, Global};

/// The rows of a block of columns of these kinds as TabSeparated text: a line for each, with a value for each kind.
pub fn rows_text(alloc: Global, kinds: &Kinds, block: &Block) -> Result<Bytes, AllocError>
    ensures { IfOk result (λ text. text ≡ rows_text kinds.now block.now) }
{
    let mut out = Vec::new(alloc);
    for row in block.as_slice() {
        put_row(&mut out, kinds.as_slice(), row.as_slice())?;
    }
    Ok(Bytes::from_vec(out))
}

// Puts the line of a row behind `out`.
fn put_row(out: &mut Vec<u8>, kinds: &[Kind], row: &[Value]) -> Result<(), AllocError>
    ensures { OnOk result (out.new.items ≡ out.old.items ++ row_text kinds.now row.now) }
{
    put_values(out, kinds, row)?;
    out.extend_from_slice(b"\n")
}

// Puts the values of columns behind `out`, with tabs between them.
fn put_values(out: &mut Vec<u8>, kinds: &[Kind], values: &[Value]) -> Result<(), AllocError>
    ensures { OnOk result (out.new.items ≡ out.old.items ++ join_by cell_text (codes "\t") (zip kinds.now values.now)) }
{
    match kinds {
        [kind, kinds @ ..] => match values {
            [value, values @ ..] => {
                put_value(out, *kind, value)?;
                put_behind_tabs(out, kinds, values)
            }
            [] => Ok(()),
        },
        [] => Ok(()),
    }
}

// Puts the values of columns behind `out`, each behind a tab.
fn put_behind_tabs(out: &mut Vec<u8>, kinds: &[Kind], values: &[Value]) -> Result<(), AllocError>
    ensures { OnOk result (out.new.items ≡ out.old.items ++ flat_map (λ cell. codes "\t" ++ cell_text cell) (zip kinds.now values.now)) }
{
    for i in 0..kinds.len().min(values.len()) {
        out.extend_from_slice(b"\t")?;
        put_value(out, kinds[i], &values[i])?;
    }
    Ok(())
}

// Puts the text of a value of a kind behind `out`.
fn put_value(out: &mut Vec<u8>, kind: Kind, value: &Value) -> Result<(), AllocError>
    ensures { OnOk result (out.new.items ≡ out.old.items ++ value_text kind value.now) }
{
    match value {
        Value::Whole(n) => out.extend_from_slice(Buffer::new().format(*n).as_bytes()),
        Value::Truth(truth) => out.extend_from_slice(truth_text(*truth).as_bytes()),
        Value::Text(text) => put_escaped(out, text.as_slice()),
        Value::State(spelling) => put_digits(out, spelling.as_slice()),
    }
}

fn truth_text(truth: bool) -> &'static str
    ensures { result.now ≡ truth_text truth }
{
    if truth { "true" } else { "false" }
}

// Puts the bytes of a text behind `out`, with their escapes.
fn put_escaped(out: &mut Vec<u8>, text: &[u8]) -> Result<(), AllocError>
    ensures { OnOk result (out.new.items ≡ out.old.items ++ flat_map escaped text.now) }
{
    for byte in text {
        match escape_of(*byte) {
            Some(letter) => out.extend_from_slice(&[b'\\', letter])?,
            None => out.extend_from_slice(&[*byte])?,
        }
    }
    Ok(())
}

// What stands behind the backslash for a byte, where it is written with one.
fn escape_of(byte: u8) -> Option<u8>
    ensures some { IfSome result (λ letter. escaped byte ≡ 92 ∷ letter ∷ []) }
    ensures none { IsNone result → escaped byte ≡ byte ∷ [] }
{
    match byte {
        8 => Some(b'b'),
        9 => Some(b't'),
        10 => Some(b'n'),
        12 => Some(b'f'),
        13 => Some(b'r'),
        0 => Some(b'0'),
        39 => Some(b'\''),
        92 => Some(b'\\'),
        _ => None,
    }
}

// Puts two hexadecimal digits for each byte behind `out`.
fn put_digits(out: &mut Vec<u8>, bytes: &[u8]) -> Result<(), AllocError>
    ensures { OnOk result (out.new.items ≡ out.old.items ++ flat_map hex_byte bytes.now) }
{
    for byte in bytes {
        let digits = [hex_digit(*byte / 16), hex_digit(*byte % 16)];
        out.extend_from_slice(&digits)?;
    }
    Ok(())
}

// The digit of a number below 16.
fn hex_digit(value: u8) -> u8
    requires { value < 16 }
    ensures { result ≡ hex_digit value }
{
    let digits = b"0123456789abcdef";
    digits[value as usize]
}
