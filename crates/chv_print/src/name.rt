// The canonical text of names and literals.
ghost use Rattle.std.specs.Prelude.{◌≡◌, ◌++◌, OnOk};
ghost use Rattle.std.specs.List.{list_any};
ghost use Rattle.std.specs.Str.{str_eq_ignore_ascii_case};
ghost use Rattle.chv_ast.specs.Lexemes.{is_reserved};
ghost use Rattle.chv_print.specs.Texts as spec;
ghost use Rattle.chv_print.specs.Texts.{name_text, literal_text};

use crate::list::Printed;
use chv_ast::{Literal, Name};
use std::alloc::AllocError;

/// The reserved words, which are names in backquotes alone.
const RESERVED: [&[u8]; 18] = [
    b"SELECT",
    b"FROM",
    b"FINAL",
    b"WHERE",
    b"GROUP",
    b"ORDER",
    b"BY",
    b"LIMIT",
    b"AS",
    b"AND",
    b"OR",
    b"NOT",
    b"ASC",
    b"DESC",
    b"SETTINGS",
    b"VALUES",
    b"TRUE",
    b"FALSE",
];

/// Whether a name is a reserved word, in any letter case.
fn is_reserved(word: &[u8]) -> bool
    ensures { result ≡ is_reserved word.now }
{
    is_among(word, &RESERVED)
}

/// Whether a word is one of others, in any letter case.
fn is_among(word: &[u8], words: &[&[u8]]) -> bool
    ensures { result ≡ list_any (λ other. str_eq_ignore_ascii_case word.now other.now) words.now }
{
    words.iter().any(|other| word.eq_ignore_ascii_case(other))
}

/// Puts a name behind `out`.
#[tactic(auto, unfolding(crate::specs::Texts::name_text))]
pub fn put_name(out: &mut Vec<u8>, name: &[u8]) -> Result<(), AllocError>
    ensures ok { OnOk result (out.new.items ≡ out.old.items ++ spec.name_text name.now) }
{
    if is_reserved(name) {
        out.push(b'`')?;
        out.extend_from_slice(name)?;
        out.push(b'`')?;
        return Ok(());
    }
    out.extend_from_slice(name)
}

/// Puts a byte of a text behind `out`, by its escape where it has one.
#[tactic(auto, unfolding(crate::specs::Texts::escaped))]
fn put_escaped(out: &mut Vec<u8>, byte: u8) -> Result<(), AllocError>
    ensures ok { OnOk result (out.new.items ≡ out.old.items ++ spec.escaped byte) }
{
    match byte {
        8 => out.extend_from_slice(b"\\b"),
        12 => out.extend_from_slice(b"\\f"),
        13 => out.extend_from_slice(b"\\r"),
        10 => out.extend_from_slice(b"\\n"),
        9 => out.extend_from_slice(b"\\t"),
        0 => out.extend_from_slice(b"\\0"),
        39 => out.extend_from_slice(b"\\'"),
        92 => out.extend_from_slice(b"\\\\"),
        _ => {
            out.push(byte)?;
            Ok(())
        }
    }
}

/// Puts a text in quotes behind `out`.
pub fn put_quoted(out: &mut Vec<u8>, text: &[u8]) -> Result<(), AllocError>
    ensures ok { OnOk result (out.new.items ≡ out.old.items ++ spec.quoted_text text.now) }
{
    out.push(b'\'')?;
    for byte in text {
        put_escaped(out, *byte)?;
    }
    out.push(b'\'')?;
    Ok(())
}

/// Puts a literal behind `out`.
pub fn put_literal(out: &mut Vec<u8>, literal: &Literal) -> Result<(), AllocError>
    ensures ok { OnOk result (out.new.items ≡ out.old.items ++ spec.literal_text literal.now) }
{
    match literal {
        Literal::Whole { minus, digits } => {
            if *minus {
                out.push(b'-')?;
            }
            out.extend_from_slice(digits.as_slice())
        }
        Literal::Quoted(text) => put_quoted(out, text.as_slice()),
        Literal::Truth(true) => out.extend_from_slice(b"TRUE"),
        Literal::Truth(false) => out.extend_from_slice(b"FALSE"),
    }
}

impl Printed for Name {
    ghost text = { name_text };

    fn put(&self, out: &mut Vec<u8>) -> Result<(), AllocError> {
        put_name(out, self.as_slice())
    }
}

impl Printed for Literal {
    ghost text = { literal_text };

    fn put(&self, out: &mut Vec<u8>) -> Result<(), AllocError> {
        put_literal(out, self)
    }
}
