// Blocks in bytes.
ghost use Rattle.std.specs.Prelude.{◌≡◌, ◌++◌, ◌+◌, length, IfOk, OnOk, OnErr};
ghost use Rattle.std.specs.Int.{to_le_bytes, w32, w64};
ghost use Rattle.chv_agg.specs.StateBytes.{agg_number};
ghost use Rattle.chv_block.specs.Spellings.{AreOf, AllAreOf, kind_code, codes_of, row_spelling, rows_spelling, block_spelling};

use crate::spell_value;
use chv_agg::{Aggregate, Count, Distinct, Greatest, Least, UnsignedSum, scalar_code};
use chv_types::{AggName, Block, Bytes, Kind, Kinds, Row, Value};
use std::alloc::{AllocError, Global};

// The bytes of a number of columns.
const COLUMNS_BYTES: usize = 4;

/// The canonical bytes of a block: its kinds behind their number, and its rows behind theirs.
///
/// Each row has a value of each kind, in the order of the kinds.
pub fn block_bytes(alloc: Global, kinds: &Kinds, block: &Block) -> Result<Bytes, AllocError>
    requires rows { AllAreOf kinds.now block.now }
    ensures { IfOk result (λ bytes. bytes ≡ block_spelling kinds.now block.now) }
{
    let mut out = Vec::new(alloc);
    put_kinds(&mut out, kinds.as_slice())?;
    let rows = block.len() as u64;
    out.extend_from_slice(&rows.to_le_bytes())?;
    put_rows(&mut out, kinds.as_slice(), block.as_slice())?;
    Ok(Bytes::from_vec(out))
}

/// Puts the kinds of columns behind `out`: how many there are, in 4 bytes, and the code of each. An `Err` leaves what was
/// there.
pub fn put_kinds(out: &mut Vec<u8>, kinds: &[Kind]) -> Result<(), AllocError>
    ensures put { OnOk result (out.new.items ≡ out.old.items ++ to_le_bytes w32 (length kinds.now) ++ codes_of kinds.now) }
    ensures err { OnErr result (out.new.items ≡ out.old.items) }
{
    let mut head = Vec::new(*out.allocator());
    put_columns(&mut head, kinds.len())?;
    put_codes(&mut head, kinds)?;
    out.extend_from_slice(&head)
}

// Puts the number of columns behind `out`.
fn put_columns(out: &mut Vec<u8>, columns: usize) -> Result<(), AllocError>
    ensures { OnOk result (out.new.items ≡ out.old.items ++ to_le_bytes w32 columns) }
{
    let bytes = (columns as u64).to_le_bytes();
    out.extend_from_slice(&bytes[..COLUMNS_BYTES])
}

// Puts the codes of kinds behind `out`.
fn put_codes(out: &mut Vec<u8>, kinds: &[Kind]) -> Result<(), AllocError>
    ensures { OnOk result (out.new.items ≡ out.old.items ++ codes_of kinds.now) }
{
    for i in 0..kinds.len() {
        put_code(out, kinds[i])?;
    }
    Ok(())
}

// Puts the code of a kind behind `out`.
fn put_code(out: &mut Vec<u8>, kind: Kind) -> Result<(), AllocError>
    ensures { OnOk result (out.new.items ≡ out.old.items ++ kind_code kind) }
{
    match kind {
        Kind::Plain(scalar) => out.extend_from_slice(&[scalar_code(scalar)]),
        Kind::State(agg, arg) => out.extend_from_slice(&[state_code(agg), scalar_code(arg)]),
    }
}

// The code of states of a function: 16 and its number.
fn state_code(agg: AggName) -> u8
    ensures { result ≡ 16 + agg_number agg }
{
    match agg {
        AggName::Count => 16 + Count::TAG,
        AggName::Sum => 16 + UnsignedSum::TAG,
        AggName::Min => 16 + Least::TAG,
        AggName::Max => 16 + Greatest::TAG,
        AggName::UniqExact => 16 + Distinct::TAG,
    }
}

// Puts rows behind `out`.
fn put_rows(out: &mut Vec<u8>, kinds: &[Kind], rows: &[Row]) -> Result<(), AllocError>
    requires rows { AllAreOf kinds.now rows.now }
    ensures { OnOk result (out.new.items ≡ out.old.items ++ rows_spelling kinds.now rows.now) }
{
    for i in 0..rows.len() {
        put_row(out, kinds, rows[i].as_slice())?;
    }
    Ok(())
}

// Puts the values of a row behind `out`.
fn put_row(out: &mut Vec<u8>, kinds: &[Kind], row: &[Value]) -> Result<(), AllocError>
    requires row { AreOf kinds.now row.now }
    ensures { OnOk result (out.new.items ≡ out.old.items ++ row_spelling kinds.now row.now) }
{
    for i in 0..row.len() {
        spell_value(kinds[i], &row[i], out)?;
    }
    Ok(())
}
