// INSERT statements and what they bring, written by hand.
use crate::paths::planned;
use chv_catalog::StatementFault;
use chv_plan::{Delivery, Plan};
use chv_sip::BlockId;
use std::alloc::Global;

// The table `t`, sorted by its third column.
const TABLE: &'static [&'static [u8]] = &[
    b"CREATE TABLE t (a Int8, b Bool, c String, d UInt8) ENGINE = MergeTree ORDER BY c",
];

// What a text brings to the table `t`; None where it is no INSERT.
fn plan_of(alloc: Global, text: &[u8]) -> Option<Result<Plan, StatementFault>> {
    planned(alloc, TABLE, text)
}

// The number of the refusal of a text, or 0 where it brings blocks; 98 where it is no INSERT, 99 for want of memory.
fn code(alloc: Global, text: &[u8]) -> u8 {
    match plan_of(alloc, text) {
        None => 98,
        Some(Ok(_)) => 0,
        Some(Err(StatementFault::Refused(refusal))) => refusal.code(),
        Some(Err(StatementFault::NoMemory)) => 99,
    }
}

// The first of some texts that is not told the number beside it.
fn first_wrong(alloc: Global, cases: &[(u8, &[u8])]) -> Option<usize> {
    cases.iter().position(|case| code(alloc, case.1) != case.0)
}

#[test]
fn the_first_check_that_fails_refuses(rt: HostRuntime) {
    let cases: [(u8, &[u8]); 16] = [
        (2, b"INSERT INTO u (e, e) VALUES (1), (1, 'x')"),
        (3, b"INSERT INTO t (e, e) VALUES (1), (1, 'x')"),
        (4, b"INSERT INTO t (a, a) VALUES (1), (1, 'x')"),
        (8, b"INSERT INTO t (a, c) VALUES (1), ('x')"),
        (8, b"INSERT INTO t (d) VALUES (1), (1, 'x')"),
        (7, b"INSERT INTO t (d) VALUES (256), (1, 'x')"),
        (7, b"INSERT INTO t (d) VALUES (1), (256)"),
        (7, b"INSERT INTO t (d) VALUES (1), (-1)"),
        (7, b"INSERT INTO t (d) VALUES (1), (TRUE)"),
        (7, b"INSERT INTO t (c) VALUES (1), (1, 'x')"),
        (0, b"INSERT INTO t (d) VALUES (1), (255)"),
        (0, b"INSERT INTO t (d) VALUES (1), ('007')"),
        (0, b"INSERT INTO t (a) VALUES (1), (-128)"),
        (0, b"INSERT INTO t (b) VALUES (1), (TRUE)"),
        (0, b"INSERT INTO t (a, c) VALUES (1, 'x'), (1, 'x')"),
        (0, b"INSERT INTO t VALUES (1, TRUE, 'x', 1)"),
    ];
    assert_eq!(rt; first_wrong(rt.alloc(), &cases), None);
}

// The settings are checked behind the columns and before the literals.
#[test]
fn a_setting_out_of_its_bounds_passes_a_limit(rt: HostRuntime) {
    let cases: [(u8, &[u8]); 10] = [
        (
            15,
            b"INSERT INTO t (d) SETTINGS max_insert_block_size = 0 VALUES (1)",
        ),
        (
            0,
            b"INSERT INTO t (d) SETTINGS max_insert_block_size = 1, min_insert_block_size_rows = 0, min_insert_block_size_bytes = 0 VALUES (1)",
        ),
        (
            0,
            b"INSERT INTO t (d) SETTINGS max_insert_block_size = 1048576, min_insert_block_size_rows = 1048576, min_insert_block_size_bytes = 1073741824 VALUES (1)",
        ),
        (
            15,
            b"INSERT INTO t (d) SETTINGS max_insert_block_size = 1048577 VALUES (1)",
        ),
        (
            15,
            b"INSERT INTO t (d) SETTINGS min_insert_block_size_rows = 1048577 VALUES (1)",
        ),
        (
            15,
            b"INSERT INTO t (d) SETTINGS min_insert_block_size_bytes = 1073741825 VALUES (1)",
        ),
        (
            15,
            b"INSERT INTO t (d) SETTINGS max_insert_block_size = 18446744073709551617 VALUES (1)",
        ),
        (7, b"INSERT INTO t (d) VALUES (256)"),
        (
            15,
            b"INSERT INTO t (d) SETTINGS max_insert_block_size = 0 VALUES (256)",
        ),
        (
            3,
            b"INSERT INTO t (e) SETTINGS max_insert_block_size = 0 VALUES (1)",
        ),
    ];
    assert_eq!(rt; first_wrong(rt.alloc(), &cases), None);
}

// Whether a delivery is one of so many rows, under an id.
fn is_block(delivery: &Delivery, rows: u64, id: BlockId) -> bool {
    delivery.table == 1 && delivery.rows == rows && delivery.id == id
}

// Whether a text brings so many blocks, the last of so many rows under this id.
fn ends_in(alloc: Global, text: &[u8], count: usize, rows: u64, id: BlockId) -> bool {
    let Some(Ok(plan)) = plan_of(alloc, text) else {
        return false;
    };
    let deliveries = plan.deliveries.as_slice();
    match deliveries.last() {
        Some(last) => deliveries.len() == count && is_block(last, rows, id),
        None => false,
    }
}

// A block goes by its rows in the order of arrival, or by the token, which is no empty one, and its number in the insert.
#[test]
fn each_block_has_its_id(rt: HostRuntime) {
    let cases: [(&[u8], usize, u64, u64, u64); 6] = [
        (
            b"INSERT INTO t (d) SETTINGS insert_deduplication_token = '', max_insert_block_size = 1 VALUES (1), (2)",
            1,
            2,
            0x3d76_915a_85bb_b977,
            0x31a5_b536_2c6d_242f,
        ),
        (
            b"INSERT INTO t (d) VALUES (2), (1)",
            1,
            2,
            0x5143_bb12_1eff_b56e,
            0x1bfa_de0d_3230_9757,
        ),
        (
            b"INSERT INTO t (d) SETTINGS insert_deduplication_token = '', max_insert_block_size = 1, min_insert_block_size_rows = 0, min_insert_block_size_bytes = 0 VALUES (1), (2)",
            2,
            1,
            0xf6d2_98d6_6864_a2d1,
            0x1256_efdd_c605_8a68,
        ),
        (
            b"INSERT INTO t (d) SETTINGS insert_deduplication_token = 'k', max_insert_block_size = 1 VALUES (1), (2)",
            1,
            2,
            0xd675_582d_7dc1_8aae,
            0xfb25_849b_e373_08c9,
        ),
        (
            b"INSERT INTO t (d) SETTINGS insert_deduplication_token = 'k', max_insert_block_size = 1, min_insert_block_size_rows = 0, min_insert_block_size_bytes = 0 VALUES (1), (2)",
            2,
            1,
            0x6f86_b6ab_be42_affc,
            0x0a31_f410_f545_c337,
        ),
        (
            b"INSERT INTO t (d) SETTINGS insert_deduplication_token = 'k', max_insert_block_size = 1, min_insert_block_size_rows = 0, min_insert_block_size_bytes = 0 VALUES (2), (1)",
            2,
            1,
            0x6f86_b6ab_be42_affc,
            0x0a31_f410_f545_c337,
        ),
    ];
    for (text, count, rows, first, second) in cases {
        assert!(rt; ends_in(rt.alloc(), text, count, rows, BlockId { first, second }));
    }
}

// Whether a text brings one block for each of these numbers of rows.
fn has_rows(alloc: Global, text: &[u8], rows: &[u64]) -> bool {
    let Some(Ok(plan)) = plan_of(alloc, text) else {
        return false;
    };
    let deliveries = plan.deliveries.as_slice();
    deliveries.len() == rows.len()
        && deliveries
            .iter()
            .zip(rows)
            .all(|(delivery, rows)| delivery.rows == *rows)
}

// Pieces of two rows are joined until there are three rows or more.
#[test]
fn seven_rows_become_blocks_of_four_and_three(rt: HostRuntime) {
    let text =
        b"INSERT INTO t (d) SETTINGS max_insert_block_size = 2, min_insert_block_size_rows = 3, min_insert_block_size_bytes = 0 VALUES (1), (2), (3), (4), (5), (6), (7)";
    assert!(rt; has_rows(rt.alloc(), text, &[4, 3]));
}

// Whether a text brings one block, whose file has these bytes behind the 24 of its frame.
fn is_file(alloc: Global, text: &[u8], body: &[u8]) -> bool {
    let Some(Ok(plan)) = plan_of(alloc, text) else {
        return false;
    };
    match plan.deliveries.as_slice() {
        [delivery] => delivery.encoded.as_slice().get(24..) == Some(body),
        _ => false,
    }
}

// Behind the frame: the kinds, two rows, and the columns in the table's order, the row of `a` first. The id is that of the
// rows as they came.
#[test]
fn rows_are_brought_in_the_order_of_the_key(rt: HostRuntime) {
    let text = b"INSERT INTO t (c, a, d) VALUES ('z', -1, '007'), ('a', 5, '255')";
    let id = BlockId {
        first: 0x6d50_6d78_4e67_0681,
        second: 0x81b8_7433_ac29_9d4a,
    };
    let body: [u8; 32] = [
        4, 0, 0, 0, 5, 9, 10, 1, 2, 0, 0, 0, 0, 0, 0, 0, 5, 255, 0, 0, 1, 0, 0, 0, b'a', 1, 0, 0,
        0, b'z', 255, 7,
    ];
    assert!(rt; ends_in(rt.alloc(), text, 1, 2, id));
    assert!(rt; is_file(rt.alloc(), text, &body));
}
