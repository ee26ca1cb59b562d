// Statements that define a table, and those that are refused.
use crate::making::{defined, make};
use chv_catalog::{Definition, Schema, StatementFault, TableDef};
use chv_types::Engine;
use std::alloc::Global;

/// The number of the refusal of a text, or 0 where it defines something; 98 where it is no CREATE statement, 99 for want of memory.
pub fn code(alloc: Global, schema: &Schema, text: &[u8]) -> u8 {
    match defined(alloc, schema, text) {
        None => 98,
        Some(Ok(_)) => 0,
        Some(Err(StatementFault::Refused(refusal))) => refusal.code(),
        Some(Err(StatementFault::NoMemory)) => 99,
    }
}

// The table `a` alone.
fn one_table(alloc: Global) -> Schema {
    let mut schema = Schema::new(alloc);
    make(
        alloc,
        &mut schema,
        b"CREATE TABLE a (n UInt64) ENGINE = MergeTree ORDER BY n",
    );
    schema
}

/// The first of some texts that is not told the number beside it.
pub fn first_wrong(alloc: Global, schema: &Schema, cases: &[(u8, &[u8])]) -> Option<usize> {
    cases
        .iter()
        .position(|case| code(alloc, schema, case.1) != case.0)
}

// Each statement has what the checks behind the one that refuses it would refuse too.
#[test]
fn the_first_check_that_holds_refuses(rt: HostRuntime) {
    let cases: [(u8, &[u8]); 17] = [
        (
            4,
            b"CREATE TABLE a (a Nope, a Nope) ENGINE = MergeTree ORDER BY x",
        ),
        (
            4,
            b"CREATE TABLE t (a Nope, a Nope) ENGINE = MergeTree ORDER BY x",
        ),
        (
            6,
            b"CREATE TABLE t (a Nope, b AggregateFunction(avg, UInt8)) ENGINE = MergeTree ORDER BY x",
        ),
        (
            5,
            b"CREATE TABLE t (a AggregateFunction(avg, UInt8), b Nope) ENGINE = MergeTree ORDER BY x",
        ),
        (6, b"CREATE TABLE t (a uint8) ENGINE = MergeTree ORDER BY x"),
        (
            6,
            b"CREATE TABLE t (a AggregateFunction(sum, String)) ENGINE = MergeTree ORDER BY x",
        ),
        (
            6,
            b"CREATE TABLE t (a AggregateFunction(sum)) ENGINE = MergeTree ORDER BY x",
        ),
        (
            6,
            b"CREATE TABLE t (a AggregateFunction(count, UInt64)) ENGINE = MergeTree ORDER BY x",
        ),
        (
            5,
            b"CREATE TABLE t (a AggregateFunction(sumState, UInt8)) ENGINE = MergeTree ORDER BY x",
        ),
        (
            5,
            b"CREATE TABLE t (a AggregateFunction(uniqexact, UInt8)) ENGINE = MergeTree ORDER BY x",
        ),
        (
            3,
            b"CREATE TABLE t (a UInt8, s AggregateFunction(SUM, UInt8)) ENGINE = AggregatingMergeTree ORDER BY (s, s, x)",
        ),
        (
            4,
            b"CREATE TABLE t (a UInt8, s AggregateFunction(SUM, UInt8)) ENGINE = AggregatingMergeTree ORDER BY (s, s)",
        ),
        (
            6,
            b"CREATE TABLE t (a UInt8, s AggregateFunction(SUM, UInt8)) ENGINE = AggregatingMergeTree ORDER BY s",
        ),
        (
            13,
            b"CREATE TABLE t (a UInt8, b Bool) ENGINE = AggregatingMergeTree ORDER BY b SETTINGS non_replicated_deduplication_window = 100001",
        ),
        (
            15,
            b"CREATE TABLE t (a UInt8, b Bool) ENGINE = MergeTree ORDER BY b SETTINGS non_replicated_deduplication_window = 100001",
        ),
        (
            0,
            b"CREATE TABLE t (a UInt8, b Bool) ENGINE = MergeTree ORDER BY b SETTINGS non_replicated_deduplication_window = 100000",
        ),
        (
            0,
            b"CREATE TABLE t (a UInt8, b Bool) ENGINE = MergeTree ORDER BY tuple()",
        ),
    ];
    assert_eq!(rt;
        first_wrong(rt.alloc(), &one_table(rt.alloc()), &cases),
        None
    );
}

// Whether a table has four columns, the key of its fourth, first and third, and 100 ids.
fn is_hits(def: &TableDef) -> bool {
    def.name.as_slice() == b"hits".as_slice()
        && def.engine == Engine::Aggregating
        && def.columns.len() == 4
        && def.key.as_slice() == [3, 0, 2].as_slice()
        && def.window == 100
}

// Whether a text defines that table.
fn defines_hits(alloc: Global, text: &[u8]) -> bool {
    match defined(alloc, &Schema::new(alloc), text) {
        Some(Ok(Definition::Table(def))) => is_hits(&def),
        _ => false,
    }
}

#[test]
fn a_table_is_what_is_written(rt: HostRuntime) {
    let text =
        b"CREATE TABLE hits (day UInt16, n AggregateFunction(Count), hour Int8, word String) ENGINE = AggregatingMergeTree ORDER BY (word, day, hour) SETTINGS non_replicated_deduplication_window = 100";
    assert!(rt; defines_hits(rt.alloc(), text));
}
