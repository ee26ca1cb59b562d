// Statements that define a view, those that are refused, and the paths along views.
use crate::definitions::first_wrong;
use crate::making::{defined, make};
use chv_catalog::{Definition, Path, Schema, ViewDef};
use std::alloc::Global;

// What each text defines, one after the other; None where one is refused.
fn schema_of(alloc: Global, texts: &[&[u8]]) -> Option<Schema> {
    let mut schema = Schema::new(alloc);
    for text in texts {
        if !make(alloc, &mut schema, text) {
            return None;
        }
    }
    Some(schema)
}

// Two tables, of which a view leads from the first to the second; and a table with a state.
const LINKED: &'static [&'static [u8]] = &[
    b"CREATE TABLE s (k UInt8, v Int16, t String) ENGINE = MergeTree ORDER BY k",
    b"CREATE TABLE p (k UInt16, w Int64, t String) ENGINE = MergeTree ORDER BY k",
    b"CREATE MATERIALIZED VIEW v TO p AS SELECT k FROM s",
    b"CREATE TABLE c (n AggregateFunction(count), m AggregateFunction(min, UInt8)) ENGINE = MergeTree ORDER BY tuple()",
];

// Each statement has what some of the checks behind the one that refuses it would refuse too.
const CHECKS: &'static [(u8, &'static [u8])] = &[
    (4, b"CREATE MATERIALIZED VIEW s TO x AS SELECT a FROM y"),
    (4, b"CREATE MATERIALIZED VIEW v TO x AS SELECT a FROM y"),
    (4, b"CREATE TABLE v (a UInt8) ENGINE = MergeTree ORDER BY a"),
    (2, b"CREATE MATERIALIZED VIEW w TO x AS SELECT a FROM y"),
    (2, b"CREATE MATERIALIZED VIEW w TO x AS SELECT a FROM s"),
    (2, b"CREATE MATERIALIZED VIEW w TO v AS SELECT a FROM s"),
    (2, b"CREATE MATERIALIZED VIEW w TO s AS SELECT a FROM v"),
    (
        6,
        b"CREATE MATERIALIZED VIEW w TO s AS SELECT a FROM p WHERE k",
    ),
    (
        6,
        b"CREATE MATERIALIZED VIEW w TO s AS SELECT k, k FROM p WHERE k",
    ),
    (
        4,
        b"CREATE MATERIALIZED VIEW w TO s AS SELECT k AS x, w AS x FROM p",
    ),
    (3, b"CREATE MATERIALIZED VIEW w TO s AS SELECT k, w FROM p"),
    (6, b"CREATE MATERIALIZED VIEW w TO s AS SELECT k FROM p"),
    (
        6,
        b"CREATE MATERIALIZED VIEW w TO s AS SELECT t AS k FROM p",
    ),
    (
        6,
        b"CREATE MATERIALIZED VIEW w TO c AS SELECT countState() AS n, minState(v) AS m FROM s",
    ),
    (10, b"CREATE MATERIALIZED VIEW w TO s AS SELECT t FROM p"),
    (10, b"CREATE MATERIALIZED VIEW w TO s AS SELECT t FROM s"),
    (
        0,
        b"CREATE MATERIALIZED VIEW w TO p AS SELECT k, v AS w, t FROM s",
    ),
    (
        0,
        b"CREATE MATERIALIZED VIEW w TO c AS SELECT countState() AS n, minState(k) AS m FROM s",
    ),
];

fn are_told(alloc: Global) -> bool {
    match schema_of(alloc, LINKED) {
        Some(schema) => first_wrong(alloc, &schema, CHECKS) == None,
        None => false,
    }
}

#[test]
fn the_first_check_of_a_view_that_holds_refuses(rt: HostRuntime) {
    assert!(rt; are_told(rt.alloc()));
}

fn is_linked(def: &ViewDef) -> bool {
    def.name.as_slice() == b"w".as_slice()
        && def.source == 2
        && def.target == 3
        && def.select.items.len() == 1
}

fn defines_linked(alloc: Global) -> bool {
    match schema_of(alloc, LINKED) {
        Some(schema) => {
            let text = b"CREATE MATERIALIZED VIEW w TO c AS SELECT countState() AS n FROM p";
            match defined(alloc, &schema, text) {
                Some(Ok(Definition::View(def))) => is_linked(&def),
                _ => false,
            }
        }
        None => false,
    }
}

#[test]
fn a_view_is_what_is_written(rt: HostRuntime) {
    assert!(rt; defines_linked(rt.alloc()));
}

// A diamond: two views lead from `s`, and from where each of them ends one leads to `t`.
const DIAMOND: &'static [&'static [u8]] = &[
    b"CREATE TABLE s (k UInt8) ENGINE = MergeTree ORDER BY k",
    b"CREATE TABLE p (k UInt8) ENGINE = MergeTree ORDER BY k",
    b"CREATE TABLE q (k UInt8) ENGINE = MergeTree ORDER BY k",
    b"CREATE TABLE t (k UInt8) ENGINE = MergeTree ORDER BY k",
    b"CREATE MATERIALIZED VIEW v0 TO t AS SELECT k FROM q",
    b"CREATE MATERIALIZED VIEW v1 TO p AS SELECT k FROM s",
    b"CREATE MATERIALIZED VIEW v2 TO q AS SELECT k FROM s",
    b"CREATE MATERIALIZED VIEW v3 TO t AS SELECT k FROM p",
];

// Its paths from `s`, in preorder.
const PATHS: &'static [&'static [u32]] = &[&[1], &[1, 3], &[2], &[2, 0]];

fn are_paths(paths: &[Path]) -> bool {
    if paths.len() != PATHS.len() {
        return false;
    }
    for i in 0..paths.len() {
        if paths[i].as_slice() != PATHS[i] {
            return false;
        }
    }
    true
}

fn has_paths(alloc: Global) -> bool {
    match schema_of(alloc, DIAMOND) {
        Some(schema) => match schema.paths(alloc, 1) {
            Ok(paths) => are_paths(paths.as_slice()),
            Err(_) => false,
        },
        None => false,
    }
}

#[test]
fn paths_are_in_the_order_of_their_views(rt: HostRuntime) {
    assert!(rt; has_paths(rt.alloc()));
}
