// What tests begin with. A step answers whether it went as it was told, so that a test is one condition.
ghost use Rattle.std.specs.Prelude.{◌≡◌, true, IfOk, IfSome};
ghost use Rattle.chv_catalog.specs.Schemas.{kinds_of};
ghost use Rattle.chv_site.specs.MemSite.{files_of};
ghost use Rattle.chv_part.specs.Books.{AreColumns};
ghost use Rattle.chv_table.specs.Tables.{IsPlaced, IsWithin};

use chv_catalog::TableDef;
use chv_commit::MAX_ENTRIES;
use chv_sip::{BlockId, body_hash};
use chv_site::{FileId, MemSite, Site};
use chv_table::{Delivered, Table, begin_table};
use chv_types::{Bytes, Column, Columns, Engine, Kind, Places, Scalar};
use std::alloc::{AllocError, Global};

/// The file of the part with the one row 1. Its hash is at 16, its body at 24, and the number at 37.
pub const ONE_ROW: [u8; 45] = [
    b'C', b'H', b'V', b'P', b'A', b'R', b'T', b'1', 21, 0, 0, 0, 0, 0, 0, 0, 0x69, 0x11, 0xcf,
    0xd5, 0xdc, 0x5c, 0x76, 0xe6, 1, 0, 0, 0, 4, 1, 0, 0, 0, 0, 0, 0, 0, 1, 0, 0, 0, 0, 0, 0, 0,
];

/// The hash that it keeps.
pub const ONE_ROW_HASH: u64 = 0xe676_5cdc_d5cf_1169;

/// Puts bytes into a file at a place that the file reaches up to.
pub fn put_at(site: &mut MemSite, f: FileId, at: u64, bytes: &[u8]) -> bool {
    at <= site.file(f).len() as u64 && site.put(f, at, bytes).is_ok()
}

/// Puts bytes behind those that a file has.
pub fn put_behind(site: &mut MemSite, f: FileId, bytes: &[u8]) -> bool {
    let end = site.file(f).len() as u64;
    site.put(f, end, bytes).is_ok()
}

/// The definition of a table of one column of numbers, which is its key, with a window of so many ids.
pub fn numbers(alloc: Global, window: u32) -> Result<TableDef, AllocError>
    ensures { IfOk result (λ def. AreColumns (kinds_of def)) }
{
    let column = Column {
        name: Bytes::new(alloc),
        kind: Kind::Plain(Scalar::UInt64),
    };
    let mut columns = Columns::new(alloc);
    let mut key = Places::new(alloc);
    columns.push(column)?;
    let _ = key.push(0);
    Ok(TableDef {
        name: Bytes::new(alloc),
        columns,
        engine: Engine::MergeTree,
        key,
        window,
    })
}

/// Table 1, of which nothing was written. It takes four calls.
pub fn begun(alloc: Global, site: &mut MemSite, window: u32) -> Option<Table>
    ensures within { IfSome result IsWithin }
    ensures placed { IfSome result (λ table. IsPlaced table (files_of site.new)) }
{
    match numbers(alloc, window) {
        Ok(def) => begin_table(alloc, site, 1, &def).ok(),
        Err(_) => None,
    }
}

// The file of the part with this one row.
fn part_of(number: u64) -> [u8; 45] {
    let mut file = ONE_ROW;
    file[37..].copy_from_slice(&number.to_le_bytes());
    let hash = body_hash(&file[24..]);
    file[16..24].copy_from_slice(&hash.to_le_bytes());
    file
}

// Delivers a block of one row under the row's number: `w` where it is written, in seven calls, and `s` where it is skipped.
fn is_delivered(site: &mut MemSite, table: &mut Table, number: u64, told: u8) -> bool
    requires within { IsWithin table.old }
    requires placed { IsPlaced table.old (files_of site.old) }
    ensures within { result ≡ true → IsWithin table.new }
    ensures placed { result ≡ true → IsPlaced table.new (files_of site.new) }
{
    if table.entries() == MAX_ENTRIES || table.reserve(1).is_err() {
        return false;
    }
    let id = BlockId {
        first: number,
        second: 0,
    };
    match table.deliver(site, id, 1, &part_of(number)) {
        Ok(Delivered::Written) => told == b'w',
        Ok(Delivered::Skipped) => told == b's',
        Err(_) => false,
    }
}

/// Delivers five blocks of one row.
pub fn are_delivered(
    site: &mut MemSite,
    table: &mut Table,
    numbers: [u64; 5],
    told: &[u8; 5],
) -> bool
    requires within { IsWithin table.old }
    requires placed { IsPlaced table.old (files_of site.old) }
    ensures within { result ≡ true → IsWithin table.new }
    ensures placed { result ≡ true → IsPlaced table.new (files_of site.new) }
{
    is_delivered(site, table, numbers[0], told[0])
        && is_delivered(site, table, numbers[1], told[1])
        && is_delivered(site, table, numbers[2], told[2])
        && is_delivered(site, table, numbers[3], told[3])
        && is_delivered(site, table, numbers[4], told[4])
}
