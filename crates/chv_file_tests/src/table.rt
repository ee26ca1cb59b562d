// A table over a site in memory: what is delivered, its rows, and what is told of a part that is damaged.
ghost use Rattle.std.specs.Prelude.{IfSome};
ghost use Rattle.chv_table.specs.Tables.{IsWithin};

use crate::making::{ONE_ROW_HASH, are_delivered, begun, put_at};
use crate::opening::opened;
use crate::part::{columns, has_text};
use chv_part::Damage;
use chv_site::{Fails, FileId, MemSite};
use chv_table::{Table, TableFault};
use chv_types::{Block, Kind, Scalar};
use std::alloc::Global;

// A window, five deliveries, what becomes of each, and what becomes of the same behind them, once the table is opened again.
// A retry that is skipped does not come to be the last.
const WINDOWS: &'static [(u32, [u64; 5], &'static [u8; 5], &'static [u8; 5])] = &[
    (0, [1, 1, 1, 1, 1], b"wwwww", b"wwwww"),
    (1, [1, 1, 2, 1, 1], b"wswws", b"sswws"),
    (2, [0, 1, 2, 2, 1], b"wwwss", b"wwwss"),
    (2, [0, 1, 2, 0, 2], b"wwwws", b"swwws"),
    (2, [1, 2, 1, 3, 1], b"wwsww", b"swsww"),
    (3, [0, 1, 2, 3, 1], b"wwwws", b"wwwws"),
];

// Table 1, with the parts of the deliveries that were written.
fn filled(
    alloc: Global,
    site: &mut MemSite,
    size: u32,
    numbers: [u64; 5],
    told: &[u8; 5],
) -> Option<Table>
    ensures { IfSome result IsWithin }
{
    let mut table = begun(alloc, site, size)?;
    if !are_delivered(site, &mut table, numbers, told) {
        return None;
    }
    Some(table)
}

fn goes_on(
    alloc: Global,
    site: &mut MemSite,
    size: u32,
    numbers: [u64; 5],
    told: &[u8; 5],
) -> bool {
    match opened(alloc, site, size) {
        Ok(mut table) => are_delivered(site, &mut table, numbers, told),
        Err(_) => false,
    }
}

fn keeps(alloc: Global, size: u32, numbers: [u64; 5], first: &[u8; 5], second: &[u8; 5]) -> bool {
    let mut site = MemSite::new(alloc, Fails::new(alloc));
    filled(alloc, &mut site, size, numbers, first).is_some()
        && goes_on(alloc, &mut site, size, numbers, second)
}

#[test]
fn an_id_counts_as_long_as_it_is_in_the_window(rt: HostRuntime) {
    for case in WINDOWS {
        assert!(rt; keeps(rt.alloc(), case.0, case.1, case.2, case.3));
    }
}

// Whether rows of one column of numbers have this text.
fn are_shown(alloc: Global, rows: &Block, text: &[u8]) -> bool {
    match columns(alloc, Kind::Plain(Scalar::UInt64), 1) {
        Ok(kinds) => has_text(alloc, &kinds, rows, text),
        Err(_) => false,
    }
}

/// Whether the rows of a table of one column of numbers have this text.
pub fn has_rows(alloc: Global, site: &mut MemSite, table: &Table, text: &[u8]) -> bool
    requires { IsWithin table.now }
{
    match table.rows(alloc, site) {
        Ok(rows) => are_shown(alloc, &rows, text),
        Err(_) => false,
    }
}

// The second part has another row than that with which it was hashed.
const CHANGED: Damage = Damage::PartHash {
    table: 1,
    part: 9,
    kept: ONE_ROW_HASH,
    found: 0xd4a1_b4d2_38de_c0b0,
};

// The rows come in the order of the key, until a part is damaged.
fn has_rows_until_damaged(alloc: Global) -> bool {
    let mut site = MemSite::new(alloc, Fails::new(alloc));
    match filled(alloc, &mut site, 0, [3, 1, 2, 1, 1], b"wwwww") {
        Some(table) => {
            has_rows(alloc, &mut site, &table, b"1\n1\n1\n2\n3\n")
                && put_at(&mut site, FileId::part(1, 9), 37, &[2])
                && table.rows(alloc, &mut site).err() == Some(TableFault::Damaged(CHANGED))
        }
        None => false,
    }
}

#[test]
fn a_table_has_its_rows_until_a_part_is_damaged(rt: HostRuntime) {
    assert!(rt; has_rows_until_damaged(rt.alloc()));
}
