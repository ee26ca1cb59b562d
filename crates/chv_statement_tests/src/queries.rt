// Queries that need FINAL, and those that do not see merges.
use crate::making::{make, statement_of};
use chv_ast::Statement;
use chv_catalog::{Schema, StatementFault};
use chv_select::prepare;
use std::alloc::Global;

// A table whose merges make rows one, and a table whose merges do not.
fn two_engines(alloc: Global) -> Schema {
    let mut schema = Schema::new(alloc);
    make(
        alloc,
        &mut schema,
        b"CREATE TABLE g (k UInt64, d UInt8, c AggregateFunction(sum, UInt64), n AggregateFunction(count)) ENGINE = AggregatingMergeTree ORDER BY (d, k)",
    );
    make(
        alloc,
        &mut schema,
        b"CREATE TABLE s (k UInt64, v UInt64) ENGINE = MergeTree ORDER BY k",
    );
    schema
}

// The number of the refusal of a query, or 0 where no check refuses it; 98 where it is no query, 99 for want of memory.
fn code(alloc: Global, schema: &Schema, text: &[u8]) -> u8 {
    match statement_of(alloc, text) {
        Some(Statement::Query(select)) => match prepare(alloc, schema, &select) {
            Ok(_) => 0,
            Err(StatementFault::Refused(refusal)) => refusal.code(),
            Err(StatementFault::NoMemory) => 99,
        },
        _ => 98,
    }
}

const CASES: &'static [(u8, &'static [u8])] = &[
    (12, b"SELECT k, c FROM g"),
    (0, b"SELECT k, c FROM g FINAL"),
    (12, b"SELECT k FROM g"),
    (12, b"SELECT * FROM g WHERE k = 1 LIMIT 0"),
    (0, b"SELECT * FROM g FINAL WHERE k = 1"),
    (0, b"SELECT k FROM g GROUP BY k"),
    (
        0,
        b"SELECT k, sumMerge(c) FROM g GROUP BY k ORDER BY k LIMIT 3",
    ),
    (
        0,
        b"SELECT sumMergeState(c), countMerge(n) FROM g WHERE NOT k > 3 AND d = 1",
    ),
    (0, b"SELECT k % 2 AS p, countMerge(n) FROM g GROUP BY p"),
    (12, b"SELECT count() FROM g"),
    (0, b"SELECT count() FROM g FINAL"),
    (12, b"SELECT sumMerge(c), count() FROM g"),
    (12, b"SELECT d, sum(k) FROM g GROUP BY d"),
    (12, b"SELECT maxState(k) FROM g"),
    (3, b"SELECT k, x FROM g"),
    (6, b"SELECT k FROM g WHERE k"),
    (3, b"SELECT k FROM g ORDER BY x"),
    (0, b"SELECT k, v FROM s"),
    (0, b"SELECT k, v FROM s FINAL"),
    (0, b"SELECT count() FROM s"),
];

fn are_told(alloc: Global, schema: &Schema) -> bool {
    CASES
        .iter()
        .all(|case| code(alloc, schema, case.1) == case.0)
}

#[test]
fn a_query_that_may_see_merges_needs_final(rt: HostRuntime) {
    assert!(rt; are_told(rt.alloc(), &two_engines(rt.alloc())));
}
