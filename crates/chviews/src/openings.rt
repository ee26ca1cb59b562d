// Stores that are opened, and logs of theirs that are damaged.
use crate::runs::{ends, run, site_failing_at};
use chv_engine::Status;
use chv_site::{FileId, MemSite, Site};
use std::alloc::Global;

const CATALOG: FileId = FileId { table: 0, part: 0 };

const FIRST_LOG: FileId = FileId { table: 1, part: 0 };

const SECOND_LOG: FileId = FileId { table: 2, part: 0 };

// An open gate, and behind it the frame of a text, up to the next gate, which is at 62.
const T: &'static [u8] = b"\x01\x39\0\0\0CREATE TABLE t (a UInt64) ENGINE = MergeTree ORDER BY (a)";

// The same of a table with a reserved word for its name, up to the gate at 129.
const BY: &'static [u8] =
    b"\x01\x3e\0\0\0CREATE TABLE `by` (b Bool) ENGINE = MergeTree ORDER BY tuple()";

// Both, and the gate behind them.
const T_AND_BY: &'static [&'static [u8]] = &[T, BY, b"\0"];

fn is_put(site: &mut MemSite, f: FileId, bytes: &[u8]) -> bool {
    let end = site.file(f).len() as u64;
    site.put(f, end, bytes).is_ok()
}

// Puts the catalog's log, piece by piece, and the logs of the first two tables.
fn are_put(site: &mut MemSite, catalog: &[&[u8]], first: &[u8], second: &[u8]) -> bool {
    for piece in catalog {
        if !is_put(site, CATALOG, piece) {
            return false;
        }
    }
    is_put(site, FIRST_LOG, first) && is_put(site, SECOND_LOG, second)
}

// A crash may leave the first gate of a catalog open; behind a gate that is not open, bytes have no meaning.
const EMPTY: &'static [(&'static [u8], &'static [u8])] = &[
    (b"", b"\0"),
    (b"\x01", b"\0"),
    (b"\0", b"\0"),
    (b"\0\x39\0\0\0CREATE", b"\0\x39\0\0\0CREATE"),
];

// The log of a table that does not stand is not read.
fn opens_as_empty(alloc: Global, catalog: &[u8], begun: &[u8]) -> bool {
    let mut site = site_failing_at(alloc, 0);
    are_put(&mut site, &[catalog], b"\x01\0", b"")
        && ends(alloc, &mut site, b"", Status::Done, b"")
        && site.file(CATALOG) == begun
        && site.file(FIRST_LOG) == b"\x01\0".as_slice()
}

#[test]
fn a_catalog_without_a_text_opens_as_an_empty_store(rt: HostRuntime) {
    for case in EMPTY {
        assert!(rt; opens_as_empty(rt.alloc(), case.0, case.1));
    }
}

// The tables are numbered in the order of their texts, and their torn logs are begun.
fn is_opened_by_names(alloc: Global) -> bool {
    let mut site = site_failing_at(alloc, 0);
    let script = b"SELECT * FROM t; SELECT * FROM `by`; SELECT * FROM u";
    let said = b"@0 Ok. 0 rows\n@0 Ok. 0 rows\n@0 Refused 2 UnknownTable\n";
    are_put(&mut site, T_AND_BY, b"\x01", b"")
        && ends(alloc, &mut site, script, Status::SomeRefused, said)
        && site.file(FIRST_LOG) == b"\0".as_slice()
        && site.file(SECOND_LOG) == b"\0".as_slice()
}

#[test]
fn the_tables_of_the_catalog_are_opened_by_their_names(rt: HostRuntime) {
    assert!(rt; is_opened_by_names(rt.alloc()));
}

// Logs of the catalog and of the first two tables, and the line that tells which is damaged first, and where.
const DAMAGED: &'static [(
    &'static [&'static [u8]],
    &'static [u8],
    &'static [u8],
    &'static [u8],
)] = &[
    // A name that is taken, an open gate with nothing behind it, and a text without a gate behind it.
    (&[T, T, b"\0"], b"", b"", b"Damaged catalog at 63\n"),
    (&[T, BY, b"\x01"], b"", b"", b"Damaged catalog at 130\n"),
    (&[T], b"", b"", b"Damaged catalog at 1\n"),
    // A space too many, a key that is no column, a name that is reserved, a sign too many, one too few, and a kind that is
    // none.
    (
        &[b"\x01\x3a\0\0\0CREATE TABLE t  (a UInt64) ENGINE = MergeTree ORDER BY (a)\0"],
        b"",
        b"",
        b"Damaged catalog at 1\n",
    ),
    (
        &[b"\x01\x39\0\0\0CREATE TABLE t (a UInt64) ENGINE = MergeTree ORDER BY (b)\0"],
        b"",
        b"",
        b"Damaged catalog at 1\n",
    ),
    (
        &[b"\x01\x3a\0\0\0CREATE TABLE by (a UInt64) ENGINE = MergeTree ORDER BY (a)\0"],
        b"",
        b"",
        b"Damaged catalog at 1\n",
    ),
    (
        &[b"\x01\x3a\0\0\0CREATE TABLE t (a UInt64) ENGINE = MergeTree ORDER BY (a);\0"],
        b"",
        b"",
        b"Damaged catalog at 1\n",
    ),
    (
        &[b"\x01\x37\0\0\0CREATE TABLE t (a UInt64) ENGINE = MergeTree ORDER BY a\0"],
        b"",
        b"",
        b"Damaged catalog at 1\n",
    ),
    (
        &[b"\x01\x39\0\0\0CREATE TABLE t (a UInt63) ENGINE = MergeTree ORDER BY (a)\0"],
        b"",
        b"",
        b"Damaged catalog at 1\n",
    ),
    // Of damaged logs of tables, the first is told, with its table's name.
    (T_AND_BY, b"\x01\0", b"", b"Damaged log of t at 1\n"),
    (T_AND_BY, b"", b"\x01\0", b"Damaged log of by at 1\n"),
    (T_AND_BY, b"\x01\0", b"\x01\0", b"Damaged log of t at 1\n"),
];

fn is_damaged(alloc: Global, catalog: &[&[u8]], first: &[u8], second: &[u8], line: &[u8]) -> bool {
    let mut site = site_failing_at(alloc, 0);
    are_put(&mut site, catalog, first, second) && ends(alloc, &mut site, b"", Status::Damaged, line)
}

#[test]
fn damage_of_a_log_is_told_behind_the_gate_where_it_begins(rt: HostRuntime) {
    for logs in DAMAGED {
        assert!(rt; is_damaged(rt.alloc(), logs.0, logs.1, logs.2, logs.3));
    }
}

// How a run on two tables with empty logs ends, where the call of a number fails. The first five calls put the logs.
fn ending(alloc: Global, call: u64) -> Option<Status> {
    let mut site = site_failing_at(alloc, call);
    if !are_put(&mut site, T_AND_BY, b"", b"") {
        return None;
    }
    run(alloc, &mut site, b"")
}

// Each log is synced and looked at, and a torn one of a table is written and synced again. Then each is read once: each of the
// catalog's gates takes a size and one read, and its text another; the tables' gates take a size each.
#[test]
fn each_call_of_an_opening_that_fails_is_told(rt: HostRuntime) {
    for call in 6..26 {
        assert!(rt;
            ending(rt.alloc(), call) == Some(Status::DiskFault),
            "call {call}"
        );
    }
    assert!(rt; ending(rt.alloc(), 26) == Some(Status::Done));
}
