// INSERT statements that bring blocks along paths.
ghost use Rattle.chv_query.specs.Accepted.{IsCatalog};

use crate::making::statement_of;
use crate::schemas::schema_of;
use chv_ast::{Refusal, Statement};
use chv_catalog::{Schema, StatementFault};
use chv_plan::{Delivery, Plan, plan_insert};
use chv_sip::BlockId;
use std::alloc::Global;

// What a text brings to the tables of a schema; None where it is no INSERT.
fn plan_in(alloc: Global, schema: &Schema, text: &[u8]) -> Option<Result<Plan, StatementFault>>
    requires schema { IsCatalog schema.now.catalog }
{
    match statement_of(alloc, text) {
        Some(Statement::Insert(insert)) => Some(plan_insert(alloc, schema, &insert)),
        _ => None,
    }
}

/// What a text brings to what the others define; None where it is no INSERT, or they define nothing.
pub fn planned(
    alloc: Global,
    texts: &[&[u8]],
    text: &[u8],
) -> Option<Result<Plan, StatementFault>> {
    match schema_of(alloc, texts) {
        Some(schema) => plan_in(alloc, &schema, text),
        None => None,
    }
}

// Whether deliveries are of these numbers of rows, each to the table of a number.
fn are_blocks(deliveries: &[Delivery], wanted: &[(u32, u64)]) -> bool {
    deliveries.len() == wanted.len()
        && deliveries.iter().zip(wanted).all(|(delivery, wanted)| delivery.table == wanted.0
            && delivery.rows == wanted.1)
}

// Whether a text brings blocks of these numbers of rows, each to the table of a number.
fn brings(alloc: Global, texts: &[&[u8]], text: &[u8], wanted: &[(u32, u64)]) -> bool {
    match planned(alloc, texts, text) {
        Some(Ok(plan)) => are_blocks(plan.deliveries.as_slice(), wanted),
        _ => false,
    }
}

// The refusal of a text, where it is refused.
fn refusal_of(alloc: Global, texts: &[&[u8]], text: &[u8]) -> Option<Refusal> {
    match planned(alloc, texts, text) {
        Some(Err(StatementFault::Refused(refusal))) => Some(refusal),
        _ => None,
    }
}

// Two paths lead from `s` to `t`.
const DIAMOND: &'static [&'static [u8]] = &[
    b"CREATE TABLE s (k UInt8) ENGINE = MergeTree ORDER BY k",
    b"CREATE TABLE a (k UInt8) ENGINE = MergeTree ORDER BY k",
    b"CREATE TABLE b (k UInt16) ENGINE = MergeTree ORDER BY k",
    b"CREATE TABLE t (d String, k UInt64) ENGINE = MergeTree ORDER BY k",
    b"CREATE MATERIALIZED VIEW sa TO a AS SELECT k FROM s WHERE k > 1",
    b"CREATE MATERIALIZED VIEW sb TO b AS SELECT k FROM s",
    b"CREATE MATERIALIZED VIEW bt TO t AS SELECT k FROM b",
    b"CREATE MATERIALIZED VIEW at TO t AS SELECT k FROM a",
];

// Whether a text brings blocks under these ids, one for each.
fn has_ids(alloc: Global, texts: &[&[u8]], text: &[u8], ids: &[BlockId]) -> bool {
    let Some(Ok(plan)) = planned(alloc, texts, text) else {
        return false;
    };
    let deliveries = plan.deliveries.as_slice();
    deliveries.len() == ids.len()
        && deliveries
            .iter()
            .zip(ids)
            .all(|(delivery, id)| delivery.id == *id)
}

// The paths come in preorder, and each has an id of its own.
#[test]
fn a_block_goes_along_both_paths(rt: HostRuntime) {
    let text = b"INSERT INTO s SETTINGS insert_deduplication_token = 'k' VALUES (3), (1), (2)";
    let rows = [(1, 3), (2, 2), (4, 2), (3, 3), (4, 3)];
    assert!(rt; brings(rt.alloc(), DIAMOND, text, &rows));
    let ids = [
        BlockId {
            first: 0xd675_582d_7dc1_8aae,
            second: 0xfb25_849b_e373_08c9,
        },
        BlockId {
            first: 0x7882_801e_d430_236b,
            second: 0x5381_8a1a_7911_6192,
        },
        BlockId {
            first: 0xe2fe_0da0_3b17_8ec3,
            second: 0x6877_1f5d_42c6_5e36,
        },
        BlockId {
            first: 0xa1af_06a2_0bd3_6c9e,
            second: 0x0f14_94ae_588d_7c1e,
        },
        BlockId {
            first: 0xddd2_43ba_a8cb_abf7,
            second: 0xd036_0282_d5fa_9385,
        },
    ];
    assert!(rt; has_ids(rt.alloc(), DIAMOND, text, &ids));
}

// Behind `a` nothing is run, since nothing arrives there.
#[test]
fn a_view_that_shows_no_row_brings_nothing(rt: HostRuntime) {
    assert!(rt;
        brings(
            rt.alloc(),
            DIAMOND,
            b"INSERT INTO s VALUES (1), (0)",
            &[(1, 2), (3, 2), (4, 2)]
        )
    );
}

// A count, and what is made of it.
const COUNTS: &'static [&'static [u8]] = &[
    b"CREATE TABLE s (k UInt8) ENGINE = MergeTree ORDER BY k",
    b"CREATE TABLE c (n UInt64) ENGINE = MergeTree ORDER BY n",
    b"CREATE TABLE z (q UInt64) ENGINE = MergeTree ORDER BY q",
    b"CREATE MATERIALIZED VIEW sc TO c AS SELECT count() AS n FROM s WHERE k > 100",
    b"CREATE MATERIALIZED VIEW cz TO z AS SELECT toUInt64(intDiv(6, n - 2)) AS q FROM c WHERE n > 0",
];

// Of no rows that pass a count is made. A view below it that divides by zero refuses the whole, behind the literals.
#[test]
fn a_count_of_no_rows_is_one_row(rt: HostRuntime) {
    assert!(rt;
        brings(
            rt.alloc(),
            COUNTS,
            b"INSERT INTO s VALUES (1), (2)",
            &[(1, 2), (2, 1)]
        )
    );
    assert!(rt;
        brings(
            rt.alloc(),
            COUNTS,
            b"INSERT INTO s VALUES (1), (101)",
            &[(1, 2), (2, 1), (3, 1)]
        )
    );
    assert_eq!(rt;
        refusal_of(rt.alloc(), COUNTS, b"INSERT INTO s VALUES (102), (101)"),
        Some(Refusal::DivisionByZero)
    );
    assert_eq!(rt;
        refusal_of(
            rt.alloc(),
            COUNTS,
            b"INSERT INTO s VALUES (102), (101), (256)"
        ),
        Some(Refusal::BadLiteral)
    );
}
