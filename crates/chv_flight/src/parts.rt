// SHOW PARTS.
ghost use Rattle.std.specs.Prelude.{◌≡◌, ◌++◌, length, map, IfOk};
ghost use Rattle.chv_history.specs.Told.{part_kinds};
ghost use Rattle.chv_store.specs.Stores.{IsUsable};
ghost use Rattle.chv_text.specs.Replies.{rows_line};
ghost use Rattle.chv_text.specs.Rows.{rows_text};
ghost use Rattle.chv_flight.specs.Answers.{Answers, parts_wish};
ghost use Rattle.chv_flight.specs.Parts.{row_told};

use crate::fault::RunFault;
use crate::say::{refuse, reply};
use chv_ast::Refusal;
use chv_commit::PartRow;
use chv_site::Site;
use chv_store::Store;
use chv_text::{line_rows, rows_text};
use chv_types::{Block, Bytes, Kind, Kinds, Row, Scalar, Value};
use std::alloc::{AllocError, Global};

/// Answers a SHOW PARTS statement; true where it was refused. It reads no file.
pub fn show_parts<W: Site>(
    alloc: Global,
    site: &mut W,
    store: &Store,
    client: u8,
    name: &[u8],
) -> Result<bool, RunFault>
    requires usable { IsUsable W.tells store.now (W.outside site.old) }
    ensures { Answers W.tells client (parts_wish name.now) result store.now store.now (W.outside site.old) (W.outside site.new) }
{
    match store.schema().table(name) {
        Some(number) => {
            let text = parts_text(alloc, client, store.parts(number))?;
            reply(site, text.as_slice(), false)
        }
        None => refuse(site, client, Refusal::UnknownTable),
    }
}

// The kinds of the four numbers that tell a part.
const PART_KINDS: [Kind; 4] = [
    Kind::Plain(Scalar::UInt64),
    Kind::Plain(Scalar::UInt64),
    Kind::Plain(Scalar::UInt64),
    Kind::Plain(Scalar::UInt64),
];

// What is said to a client for live parts: a line for each, and the line that ends the reply.
fn parts_text(alloc: Global, client: u8, parts: &[PartRow]) -> Result<Bytes, AllocError>
    ensures { IfOk result (λ text. text ≡ rows_text part_kinds (map row_told parts.now) ++ rows_line client (length parts.now)) }
{
    let mut rows = Vec::with_capacity(alloc, parts.len())?;
    for part in parts {
        rows.push(row_told(alloc, part)?)?;
    }
    let kinds = Kinds::from_slice(alloc, &PART_KINDS)?;
    let mut text = rows_text(alloc, &kinds, &Block::from_vec(rows))?;
    let end = line_rows(client, parts.len() as u64);
    text.append(Bytes::from_slice(alloc, end.as_slice())?)?;
    Ok(text)
}

// A live part as a row: its first entry and its last, its level, and how many rows it has.
fn row_told(alloc: Global, part: &PartRow) -> Result<Row, AllocError>
    ensures { IfOk result (λ row. row ≡ row_told part.now) }
{
    let mut row = Vec::with_capacity(alloc, 4)?;
    for number in [part.lo, part.hi, part.level, part.rows] {
        row.push(Value::Whole(number as i128))?;
    }
    Ok(Row::from_vec(row))
}
