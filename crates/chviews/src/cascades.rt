// Inserts that go down views, stopped at each call of the site and sent again.
use crate::runs::{run, site_failing_at};
use chv_site::{MemSite, Pick, Site};
use std::alloc::Global;

// Tables with views and an INSERT into the first; behind them how many rows each table has, and those of the last.
struct Cascade {
    script: &'static [u8],
    // What is said up to the reply of the INSERT.
    answered: &'static [u8],
    // The same where the script is run again.
    skipped: &'static [u8],
    // What is said of the rows.
    rows: &'static [u8],
}

// Two views that read one table, and two that fill another from what these fill.
const DIAMOND: Cascade = Cascade {
    script: b"CREATE TABLE s (a UInt64) ENGINE = MergeTree ORDER BY a SETTINGS non_replicated_deduplication_window = 9; CREATE TABLE p (a UInt64) ENGINE = MergeTree ORDER BY a SETTINGS non_replicated_deduplication_window = 9; CREATE TABLE q (a UInt64) ENGINE = MergeTree ORDER BY a SETTINGS non_replicated_deduplication_window = 9; CREATE TABLE t (a UInt64) ENGINE = MergeTree ORDER BY a SETTINGS non_replicated_deduplication_window = 9; CREATE MATERIALIZED VIEW v1 TO p AS SELECT a FROM s; CREATE MATERIALIZED VIEW v2 TO q AS SELECT a FROM s; CREATE MATERIALIZED VIEW v3 TO t AS SELECT a FROM p; CREATE MATERIALIZED VIEW v4 TO t AS SELECT a FROM q; INSERT INTO s VALUES (2),(1); SELECT count() FROM s; SELECT count() FROM p; SELECT count() FROM q; SELECT * FROM t;",
    answered: b"@0 Ok.\n@0 Ok.\n@0 Ok.\n@0 Ok.\n@0 Ok.\n@0 Ok.\n@0 Ok.\n@0 Ok.\n@0 Ok. 5 written, 0 skipped\n",
    skipped: b"@0 Refused 4 NameTaken\n@0 Refused 4 NameTaken\n@0 Refused 4 NameTaken\n@0 Refused 4 NameTaken\n@0 Refused 4 NameTaken\n@0 Refused 4 NameTaken\n@0 Refused 4 NameTaken\n@0 Refused 4 NameTaken\n@0 Ok. 0 written, 5 skipped\n",
    rows: b"2\n@0 Ok. 1 rows\n2\n@0 Ok. 1 rows\n2\n@0 Ok. 1 rows\n1\n1\n2\n2\n@0 Ok. 4 rows\n",
};

// A chain of eight views.
const CHAIN: Cascade = Cascade {
    script: b"CREATE TABLE t0 (a UInt64) ENGINE = MergeTree ORDER BY a SETTINGS non_replicated_deduplication_window = 9; CREATE TABLE t1 (a UInt64) ENGINE = MergeTree ORDER BY a SETTINGS non_replicated_deduplication_window = 9; CREATE TABLE t2 (a UInt64) ENGINE = MergeTree ORDER BY a SETTINGS non_replicated_deduplication_window = 9; CREATE TABLE t3 (a UInt64) ENGINE = MergeTree ORDER BY a SETTINGS non_replicated_deduplication_window = 9; CREATE TABLE t4 (a UInt64) ENGINE = MergeTree ORDER BY a SETTINGS non_replicated_deduplication_window = 9; CREATE TABLE t5 (a UInt64) ENGINE = MergeTree ORDER BY a SETTINGS non_replicated_deduplication_window = 9; CREATE TABLE t6 (a UInt64) ENGINE = MergeTree ORDER BY a SETTINGS non_replicated_deduplication_window = 9; CREATE TABLE t7 (a UInt64) ENGINE = MergeTree ORDER BY a SETTINGS non_replicated_deduplication_window = 9; CREATE TABLE t8 (a UInt64) ENGINE = MergeTree ORDER BY a SETTINGS non_replicated_deduplication_window = 9; CREATE MATERIALIZED VIEW v0 TO t1 AS SELECT a + 1 AS a FROM t0; CREATE MATERIALIZED VIEW v1 TO t2 AS SELECT a + 1 AS a FROM t1; CREATE MATERIALIZED VIEW v2 TO t3 AS SELECT a + 1 AS a FROM t2; CREATE MATERIALIZED VIEW v3 TO t4 AS SELECT a + 1 AS a FROM t3; CREATE MATERIALIZED VIEW v4 TO t5 AS SELECT a + 1 AS a FROM t4; CREATE MATERIALIZED VIEW v5 TO t6 AS SELECT a + 1 AS a FROM t5; CREATE MATERIALIZED VIEW v6 TO t7 AS SELECT a + 1 AS a FROM t6; CREATE MATERIALIZED VIEW v7 TO t8 AS SELECT a + 1 AS a FROM t7; INSERT INTO t0 VALUES (2),(1); SELECT count() FROM t0; SELECT count() FROM t1; SELECT count() FROM t2; SELECT count() FROM t3; SELECT count() FROM t4; SELECT count() FROM t5; SELECT count() FROM t6; SELECT count() FROM t7; SELECT * FROM t8;",
    answered: b"@0 Ok.\n@0 Ok.\n@0 Ok.\n@0 Ok.\n@0 Ok.\n@0 Ok.\n@0 Ok.\n@0 Ok.\n@0 Ok.\n@0 Ok.\n@0 Ok.\n@0 Ok.\n@0 Ok.\n@0 Ok.\n@0 Ok.\n@0 Ok.\n@0 Ok.\n@0 Ok. 9 written, 0 skipped\n",
    skipped: b"@0 Refused 4 NameTaken\n@0 Refused 4 NameTaken\n@0 Refused 4 NameTaken\n@0 Refused 4 NameTaken\n@0 Refused 4 NameTaken\n@0 Refused 4 NameTaken\n@0 Refused 4 NameTaken\n@0 Refused 4 NameTaken\n@0 Refused 4 NameTaken\n@0 Refused 4 NameTaken\n@0 Refused 4 NameTaken\n@0 Refused 4 NameTaken\n@0 Refused 4 NameTaken\n@0 Refused 4 NameTaken\n@0 Refused 4 NameTaken\n@0 Refused 4 NameTaken\n@0 Refused 4 NameTaken\n@0 Ok. 0 written, 9 skipped\n",
    rows: b"2\n@0 Ok. 1 rows\n2\n@0 Ok. 1 rows\n2\n@0 Ok. 1 rows\n2\n@0 Ok. 1 rows\n2\n@0 Ok. 1 rows\n2\n@0 Ok. 1 rows\n2\n@0 Ok. 1 rows\n2\n@0 Ok. 1 rows\n9\n10\n@0 Ok. 2 rows\n",
};

const PICKS: &'static [Pick] = &[Pick::Old, Pick::New, Pick::Torn { byte: 1 }];

// Sends all again: each row stands once along each path, and no block is written again whose reply was said.
fn stands_once(alloc: Global, site: &mut MemSite, cascade: &Cascade, was_answered: bool) -> bool {
    let _ = run(alloc, site, cascade.script);
    site.said().ends_with(cascade.rows)
        && (!was_answered || site.said().starts_with(cascade.skipped))
}

// A call of a run fails, or the site is stopped there; and it crashes.
fn is_mended(alloc: Global, cascade: &Cascade, call: u64, stops: bool, pick: Pick) -> bool {
    let mut site = site_failing_at(alloc, call);
    if stops {
        site.stop_at(call);
    }
    let _ = run(alloc, &mut site, cascade.script);
    let was_answered = site.said().starts_with(cascade.answered);
    match site.crash(pick) {
        Ok(mut left) => stands_once(alloc, &mut left, cascade, was_answered),
        Err(_) => false,
    }
}

fn is_mended_at(alloc: Global, cascade: &Cascade, call: u64) -> bool {
    for pick in PICKS {
        if !is_mended(alloc, cascade, call, false, *pick)
            || !is_mended(alloc, cascade, call, true, *pick)
        {
            return false;
        }
    }
    true
}

#[test]
fn an_insert_over_a_diamond_stands_once_along_each_path(rt: HostRuntime) {
    for call in 1..130 {
        assert!(rt; is_mended_at(rt.alloc(), &DIAMOND, call), "call {call}");
    }
}

#[test]
fn an_insert_down_eight_views_stands_once_in_each_table(rt: HostRuntime) {
    for call in 130..220 {
        assert!(rt; is_mended_at(rt.alloc(), &CHAIN, call), "call {call}");
    }
}
