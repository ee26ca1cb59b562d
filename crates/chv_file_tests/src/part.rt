// Parts as they are written, and as they are read back, whole and damaged.
ghost use Rattle.std.specs.Prelude.{◌<◌, ◌≤◌, IfOk};
ghost use Rattle.chv_block.specs.Spellings.{AllAreOf};
ghost use Rattle.chv_part.specs.Books.{AreColumns};

use crate::making::{ONE_ROW, ONE_ROW_HASH};
use chv_part::{PartFault, encode_part, read_part, write_part};
use chv_sip::body_hash;
use chv_site::{Fails, FileId, MemSite};
use chv_text::rows_text;
use chv_types::{Block, Kind, Kinds, Scalar};
use std::alloc::{AllocError, Global};

const PART: FileId = FileId { table: 1, part: 8 };

// The file of the part with the rows (1, 10) and (2, 20).
const TWO_COLUMNS: [u8; 70] = [
    b'C', b'H', b'V', b'P', b'A', b'R', b'T', b'1', 46, 0, 0, 0, 0, 0, 0, 0, 0x63, 0xf5, 0x80,
    0x7a, 0x88, 0x17, 0xf7, 0xb2, 2, 0, 0, 0, 4, 4, 2, 0, 0, 0, 0, 0, 0, 0, 1, 0, 0, 0, 0, 0, 0, 0,
    2, 0, 0, 0, 0, 0, 0, 0, 10, 0, 0, 0, 0, 0, 0, 0, 20, 0, 0, 0, 0, 0, 0, 0,
];

// The body of the part with two rows of each kind: the least and the greatest number, both truths, and two texts.
const EACH_KIND: [u8; 94] = [
    10, 0, 0, 0, 1, 2, 3, 4, 5, 6, 7, 8, 9, 10, 2, 0, 0, 0, 0, 0, 0, 0, // the head
    0, 255, // UInt8
    0, 0, 255, 255, // UInt16
    0, 0, 0, 0, 255, 255, 255, 255, // UInt32
    0, 0, 0, 0, 0, 0, 0, 0, 255, 255, 255, 255, 255, 255, 255, 255, // UInt64
    128, 127, // Int8
    0, 128, 255, 127, // Int16
    0, 0, 0, 128, 255, 255, 255, 127, // Int32
    0, 0, 0, 0, 0, 0, 0, 128, 255, 255, 255, 255, 255, 255, 255, 127, // Int64
    0, 1, // Bool
    0, 0, 0, 0, 2, 0, 0, 0, b'o', b'k', // String
];

const EACH_KIND_TEXT: &[u8] =
    b"0\t0\t0\t0\t-128\t-32768\t-2147483648\t-9223372036854775808\tfalse\t\n255\t65535\t4294967295\t18446744073709551615\t127\t32767\t2147483647\t9223372036854775807\ttrue\tok\n";

fn each_kind(alloc: Global) -> Result<Kinds, AllocError>
    ensures { IfOk result AreColumns }
{
    let kinds = [
        Kind::Plain(Scalar::UInt8),
        Kind::Plain(Scalar::UInt16),
        Kind::Plain(Scalar::UInt32),
        Kind::Plain(Scalar::UInt64),
        Kind::Plain(Scalar::Int8),
        Kind::Plain(Scalar::Int16),
        Kind::Plain(Scalar::Int32),
        Kind::Plain(Scalar::Int64),
        Kind::Plain(Scalar::Bool),
        Kind::Plain(Scalar::Text),
    ];
    Ok(Kinds::from_slice(alloc, &kinds)?)
}

/// So many columns of a kind, one or two.
pub fn columns(alloc: Global, kind: Kind, count: usize) -> Result<Kinds, AllocError>
    requires some { 1 ≤ count }
    requires most { count ≤ 2 }
    ensures { IfOk result AreColumns }
{
    let kinds = [kind; 2];
    Ok(Kinds::from_slice(alloc, &kinds[..count])?)
}

/// The file that has this body, of 104 bytes at most.
pub fn framed<'a>(file: &'a mut [u8; 128], body: &[u8]) -> &'a [u8] {
    let len = body.len().min(104);
    file[..8].copy_from_slice(b"CHVPART1");
    file[8..16].copy_from_slice(&(len as u64).to_le_bytes());
    file[16..24].copy_from_slice(&body_hash(&body[..len]).to_le_bytes());
    file[24..24 + len].copy_from_slice(&body[..len]);
    &file[..24 + len]
}

// What is read of a file.
fn read(alloc: Global, kinds: &Kinds, file: &[u8]) -> Result<Block, PartFault>
    requires { AreColumns kinds.now }
    ensures { IfOk result (λ rows. AllAreOf kinds.now rows) }
{
    let mut site = MemSite::new(alloc, Fails::new(alloc));
    write_part(&mut site, PART, file)?;
    read_part(alloc, &mut site, PART, kinds)
}

/// Whether rows of these kinds have this text.
pub fn has_text(alloc: Global, kinds: &Kinds, rows: &Block, text: &[u8]) -> bool {
    match rows_text(alloc, kinds, rows) {
        Ok(told) => told.as_slice() == text,
        Err(_) => false,
    }
}

fn is_encoded(alloc: Global, kinds: &Kinds, rows: &Block, file: &[u8]) -> bool
    requires columns { AreColumns kinds.now }
    requires rows { AllAreOf kinds.now rows.now }
{
    match encode_part(alloc, kinds, rows) {
        Ok(bytes) => bytes.as_slice() == file,
        Err(_) => false,
    }
}

/// Whether a file reads as the rows with this text, and they are written as this file.
pub fn is_kept(alloc: Global, kinds: &Kinds, file: &[u8], text: &[u8]) -> bool
    requires { AreColumns kinds.now }
{
    match read(alloc, kinds, file) {
        Ok(rows) => has_text(alloc, kinds, &rows, text) && is_encoded(alloc, kinds, &rows, file),
        Err(_) => false,
    }
}

fn keeps_two_columns(alloc: Global) -> bool {
    match columns(alloc, Kind::Plain(Scalar::UInt64), 2) {
        Ok(kinds) => is_kept(alloc, &kinds, &TWO_COLUMNS, b"1\t10\n2\t20\n"),
        Err(_) => false,
    }
}

#[test]
fn a_part_has_its_columns_one_behind_the_other(rt: HostRuntime) {
    assert!(rt; keeps_two_columns(rt.alloc()));
}

fn keeps_each_kind(alloc: Global) -> bool {
    let mut file = [0; 128];
    match each_kind(alloc) {
        Ok(kinds) => is_kept(alloc, &kinds, framed(&mut file, &EACH_KIND), EACH_KIND_TEXT),
        Err(_) => false,
    }
}

#[test]
fn a_part_of_each_kind_reads_as_its_rows(rt: HostRuntime) {
    assert!(rt; keeps_each_kind(rt.alloc()));
}

// How many rows a file of one column has.
fn count(alloc: Global, kind: Kind, file: &[u8]) -> Result<usize, PartFault> {
    let kinds = columns(alloc, kind, 1)?;
    match read(alloc, &kinds, file) {
        Ok(rows) => Ok(rows.len()),
        Err(fault) => Err(fault),
    }
}

/// Whether a body is not that of rows of one column of a kind.
pub fn is_shapeless(alloc: Global, kind: Kind, body: &[u8]) -> bool {
    let mut file = [0; 128];
    count(alloc, kind, framed(&mut file, body)) == Err(PartFault::Shape)
}

// Bodies off the grammar.
const SHAPELESS: &'static [(Scalar, &'static [u8])] = &[
    // No body, half a head, and no column.
    (Scalar::UInt8, &[]),
    (Scalar::UInt8, &[1, 0, 0, 0, 1]),
    (Scalar::UInt8, &[0, 0, 0, 0, 0, 0, 0, 0, 0, 0, 0, 0]),
    // A signed kind, and two columns.
    (Scalar::UInt8, &[1, 0, 0, 0, 5, 1, 0, 0, 0, 0, 0, 0, 0, 7]),
    (
        Scalar::UInt8,
        &[2, 0, 0, 0, 1, 1, 1, 0, 0, 0, 0, 0, 0, 0, 7, 7],
    ),
    // More rows than bytes; a row that lacks a byte, and one that has a byte more.
    (Scalar::UInt8, &[1, 0, 0, 0, 1, 2, 0, 0, 0, 0, 0, 0, 0, 7]),
    (
        Scalar::UInt8,
        &[1, 0, 0, 0, 1, 255, 255, 255, 255, 255, 255, 255, 255, 7],
    ),
    (Scalar::UInt16, &[1, 0, 0, 0, 2, 1, 0, 0, 0, 0, 0, 0, 0, 7]),
    (
        Scalar::UInt16,
        &[1, 0, 0, 0, 2, 1, 0, 0, 0, 0, 0, 0, 0, 7, 7, 7],
    ),
    // A truth of 2, and a text whose length is not there.
    (Scalar::Bool, &[1, 0, 0, 0, 9, 1, 0, 0, 0, 0, 0, 0, 0, 2]),
    (
        Scalar::Text,
        &[1, 0, 0, 0, 10, 1, 0, 0, 0, 0, 0, 0, 0, 2, 0, 0, 0, 7],
    ),
];

#[test]
fn another_body_has_no_shape(rt: HostRuntime) {
    for case in SHAPELESS {
        assert!(rt; is_shapeless(rt.alloc(), Kind::Plain(case.0), case.1));
    }
}

// Whether a file is told as damaged that is shorter, and one of which a byte is changed. One of the mark or the length belongs
// to the frame; one of the hash, or of the body, makes the two hashes differ.
fn is_told(alloc: Global, at: usize) -> bool
    requires { at < 45 }
{
    let mut file = ONE_ROW;
    file[at] ^= 255;
    let is_told = match count(alloc, Kind::Plain(Scalar::UInt64), &file) {
        Err(PartFault::Shape) => at < 16,
        Err(PartFault::Hash { kept, found }) => {
            16 <= at && (kept == ONE_ROW_HASH) == (24 <= at) && (found == ONE_ROW_HASH) == (at < 24)
        }
        _ => false,
    };
    is_told && count(alloc, Kind::Plain(Scalar::UInt64), &ONE_ROW[..at]) == Err(PartFault::Shape)
}

#[test]
fn each_changed_byte_and_each_shorter_file_is_damage(rt: HostRuntime) {
    for at in 0..45 {
        assert!(rt; is_told(rt.alloc(), at), "at {at}");
    }
}
