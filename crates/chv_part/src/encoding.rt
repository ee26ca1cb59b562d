// The files of parts.
ghost use Rattle.std.specs.Prelude.{◌≡◌, ◌≤◌, ◌+◌, ◌++◌, IfOk, OnOk, length, drop, slice_get};
ghost use Rattle.chv_block.specs.Spellings.{AllAreOf};
ghost use Rattle.chv_part.specs.Columns.{IsSomeOf, ColumnIsOf};
ghost use Rattle.chv_part.specs.Parts.{spelled, column_spelling, columns_spelling, part_body, part_frame, part_file};

use chv_block::{put_kinds, spell_value};
use chv_sip::body_hash;
use chv_types::{Block, Bytes, Kind, Kinds, Row};
use std::alloc::{AllocError, Global};

/// What the file of a part begins with.
pub const MARK: [u8; 8] = *b"CHVPART1";

/// The number of bytes in front of a body: the mark, the body's length and its hash.
pub const FRAME_BYTES: usize = 24;

/// The file of a part: a frame that keeps the body's hash, and the values of the rows column by column.
///
/// The rows are put in the order that they have.
#[tactic(auto, unfolding(crate::specs::Parts::part_file))]
pub fn encode_part(alloc: Global, kinds: &Kinds, block: &Block) -> Result<Bytes, AllocError>
    requires rows { AllAreOf kinds.now block.now }
    ensures { IfOk result (λ file. file ≡ part_file kinds.now block.now) }
{
    let mut file = Vec::new(alloc);
    file.extend_from_slice(&[0; FRAME_BYTES])?;
    put_body(&mut file, kinds.as_slice(), block.as_slice())?;
    fill_frame(&mut file);
    Ok(Bytes::from_vec(file))
}

// Fills in what stands in front of a body: the mark, the body's length and its hash.
fn fill_frame(file: &mut [u8])
    requires room { FRAME_BYTES ≤ length file.old }
    ensures { file.new ≡ part_frame (drop FRAME_BYTES file.old) }
{
    let size = (file.len() - FRAME_BYTES) as u64;
    let hash = body_hash(&file[FRAME_BYTES..]);
    file[..8].copy_from_slice(&MARK);
    file[8..16].copy_from_slice(&size.to_le_bytes());
    file[16..FRAME_BYTES].copy_from_slice(&hash.to_le_bytes());
}

// Puts the body of a part behind `out`.
fn put_body(out: &mut Vec<u8>, kinds: &[Kind], rows: &[Row]) -> Result<(), AllocError>
    requires rows { AllAreOf kinds.now rows.now }
    ensures { OnOk result (out.new.items ≡ out.old.items ++ part_body kinds.now rows.now) }
{
    put_kinds(out, kinds)?;
    let count = rows.len() as u64;
    out.extend_from_slice(&count.to_le_bytes())?;
    put_columns(out, kinds, rows)
}

// Puts the values of rows behind `out`, column by column.
fn put_columns(out: &mut Vec<u8>, kinds: &[Kind], rows: &[Row]) -> Result<(), AllocError>
    requires rows { AllAreOf kinds.now rows.now }
    ensures { OnOk result (out.new.items ≡ out.old.items ++ columns_spelling 0 kinds.now rows.now) }
{
    for place in 0..kinds.len() {
        put_column(out, kinds[place], place, rows)?;
    }
    Ok(())
}

// Puts the values of the column at a place behind `out`.
fn put_column(out: &mut Vec<u8>, kind: Kind, place: usize, rows: &[Row]) -> Result<(), AllocError>
    requires values { ColumnIsOf kind place rows.now }
    ensures { OnOk result (out.new.items ≡ out.old.items ++ column_spelling kind place rows.now) }
{
    for i in 0..rows.len() {
        put_at(out, kind, &rows[i], place)?;
    }
    Ok(())
}

// Puts the value at a place of a row behind `out`.
fn put_at(out: &mut Vec<u8>, kind: Kind, row: &Row, place: usize) -> Result<(), AllocError>
    requires value { IsSomeOf kind (slice_get row.now place) }
    ensures { OnOk result (out.new.items ≡ out.old.items ++ spelled kind (slice_get row.now place)) }
{
    match row.get(place) {
        Some(value) => spell_value(kind, value, out),
        None => Ok(()),
    }
}
