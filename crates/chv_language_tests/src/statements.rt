use chv_ast::{Expr, Item, Select, Statement};
use chv_lex::tokens;
use chv_parse::{ParseFault, statement};
use chv_print::{expr_text, statement_text};
use std::alloc::Global;
use std::test::Fail;

fn prints(alloc: Global, read: &Statement, expected: &[u8]) -> bool {
    match statement_text(alloc, read) {
        Ok(text) => text.as_slice() == expected,
        Err(_) => false,
    }
}

// Whether a text is a statement with this canonical text.
fn is_read_as(alloc: Global, text: &[u8], expected: &[u8]) -> bool {
    match tokens(alloc, text) {
        Ok(tokens) => match statement(alloc, text, &tokens) {
            Ok(read) => prints(alloc, &read, expected),
            Err(_) => false,
        },
        Err(_) => false,
    }
}

// Each form, with what may be absent and without it.
#[test]
fn statements_have_canonical_texts(rt: HostRuntime) {
    let cases: [(&[u8], &[u8]); 29] = [
        (
            b"CREATE TABLE t (k UInt64) ENGINE = MergeTree ORDER BY k",
            b"CREATE TABLE t (k UInt64) ENGINE = MergeTree ORDER BY (k)",
        ),
        (
            b"create table t (k UInt64, s String, a AggregateFunction(sum, UInt64)) engine AggregatingMergeTree() order by (k, s)",
            b"CREATE TABLE t (k UInt64, s String, a AggregateFunction(sum, UInt64)) ENGINE = AggregatingMergeTree ORDER BY (k, s)",
        ),
        (
            b"CREATE TABLE t (n AggregateFunction(count)) ENGINE MergeTree ORDER BY tuple() SETTINGS non_replicated_deduplication_window = 0100",
            b"CREATE TABLE t (n AggregateFunction(count)) ENGINE = MergeTree ORDER BY tuple() SETTINGS non_replicated_deduplication_window = 100",
        ),
        (
            b"CREATE TABLE `select` (`from` `UInt64`) ENGINE = MergeTree() ORDER BY (`from`)",
            b"CREATE TABLE `select` (`from` UInt64) ENGINE = MergeTree ORDER BY (`from`)",
        ),
        (
            b"CREATE TABLE tuple (tuple AggregateFunction, engine String) ENGINE = MergeTree ORDER BY tuple",
            b"CREATE TABLE tuple (tuple AggregateFunction, engine String) ENGINE = MergeTree ORDER BY (tuple)",
        ),
        (
            b"CREATE MATERIALIZED VIEW v TO w AS SELECT k, sum(v) AS s FROM t WHERE k = 1 OR NOT k > 2 GROUP BY k, k % 2",
            b"CREATE MATERIALIZED VIEW v TO w AS SELECT k, sum(v) AS s FROM t WHERE ((k = 1) OR (NOT (k > 2))) GROUP BY k, (k % 2)",
        ),
        (
            b"create materialized view view to to as select * from view",
            b"CREATE MATERIALIZED VIEW view TO to AS SELECT * FROM view",
        ),
        (b"INSERT INTO t VALUES (1)", b"INSERT INTO t VALUES (1)"),
        (
            b"INSERT INTO TABLE t (a, `Order`) VALUES (1, -2), ('x', TRUE), (false, '')",
            b"INSERT INTO t (a, `Order`) VALUES (1, -2), ('x', TRUE), (FALSE, '')",
        ),
        (
            b"INSERT INTO table VALUES (1)",
            b"INSERT INTO table VALUES (1)",
        ),
        (
            b"INSERT INTO TABLE table VALUES (1)",
            b"INSERT INTO table VALUES (1)",
        ),
        (
            b"INSERT INTO TABLE (a) VALUES (1)",
            b"INSERT INTO TABLE (a) VALUES (1)",
        ),
        (
            b"INSERT INTO TABLE SETTINGS async_insert = 0 VALUES (1)",
            b"INSERT INTO TABLE VALUES (1)",
        ),
        (
            b"INSERT INTO t SETTINGS async_insert = 1, wait_for_async_insert = 0, insert_deduplication_token = 'x' VALUES (1)",
            b"INSERT INTO t SETTINGS insert_deduplication_token = 'x', async_insert = 1, wait_for_async_insert = 0 VALUES (1)",
        ),
        (
            b"INSERT INTO t (a) SETTINGS min_insert_block_size_bytes = 5, max_insert_block_size = 10, min_insert_block_size_rows = 00 VALUES (1)",
            b"INSERT INTO t (a) SETTINGS max_insert_block_size = 10, min_insert_block_size_rows = 0, min_insert_block_size_bytes = 5 VALUES (1)",
        ),
        (
            b"INSERT INTO t SETTINGS deduplicate_blocks_in_dependent_materialized_views = 1 VALUES (1)",
            b"INSERT INTO t VALUES (1)",
        ),
        // The last of two settings counts.
        (
            b"INSERT INTO t SETTINGS async_insert = 1, max_insert_block_size = 007, async_insert = 0, insert_deduplication_token = 'a''b\\n' VALUES (-0012, TRUE), ('')",
            b"INSERT INTO t SETTINGS insert_deduplication_token = 'a\\'b\\n', max_insert_block_size = 7 VALUES (-12, TRUE), ('')",
        ),
        (b"SELECT * FROM t", b"SELECT * FROM t"),
        (
            b"SELECT *, k AS `as`, count(*), -k FROM t FINAL WHERE a == b GROUP BY k ORDER BY k ASC, v DESC, w LIMIT 007",
            b"SELECT *, k AS `as`, count(), (-k) FROM t FINAL WHERE (a = b) GROUP BY k ORDER BY k, v DESC, w LIMIT 7",
        ),
        (
            b"select k from t order by `limit`",
            b"SELECT k FROM t ORDER BY `limit`",
        ),
        (b"SELECT k FROM t LIMIT 0", b"SELECT k FROM t LIMIT 0"),
        (b"SHOW PARTS t", b"SHOW PARTS t"),
        (b"show parts parts", b"SHOW PARTS parts"),
        (b"SHOW PARTS `t`", b"SHOW PARTS t"),
        (b"OPTIMIZE TABLE table FINAL", b"OPTIMIZE TABLE table FINAL"),
        (
            b"optimize table `VALUES` final",
            b"OPTIMIZE TABLE `VALUES` FINAL",
        ),
        (
            b"SYSTEM FLUSH ASYNC INSERT QUEUE",
            b"SYSTEM FLUSH ASYNC INSERT QUEUE",
        ),
        // A text with each byte that has an escape, and others.
        (
            b"INSERT INTO t VALUES ('\x08\x0c\r\n\t\0''\\\\ a\xff')",
            b"INSERT INTO t VALUES ('\\b\\f\\r\\n\\t\\0\\'\\\\ a\xff')",
        ),
        (
            b"INSERT INTO t VALUES ('\\b\\f\\r\\n\\t\\0\\'\\\\')",
            b"INSERT INTO t VALUES ('\\b\\f\\r\\n\\t\\0\\'\\\\')",
        ),
    ];
    for (text, expected) in cases {
        assert!(rt; is_read_as(rt.alloc(), text, expected));
    }
}

fn has_text(alloc: Global, e: &Expr, expected: &[u8]) -> bool {
    match expr_text(alloc, e) {
        Ok(text) => text.as_slice() == expected,
        Err(_) => false,
    }
}

fn begins_with(alloc: Global, select: &Select, expected: &[u8]) -> bool {
    match select.items.as_slice().first() {
        Some(Item::One { expr, .. }) => has_text(alloc, expr, expected),
        _ => false,
    }
}

// Whether a text is a query of which the first item has this canonical text.
fn shows(alloc: Global, text: &[u8], expected: &[u8]) -> bool {
    match tokens(alloc, text) {
        Ok(tokens) => match statement(alloc, text, &tokens) {
            Ok(Statement::Query(select)) => begins_with(alloc, &select, expected),
            _ => false,
        },
        Err(_) => false,
    }
}

// Each operation, how tightly it binds, and calls.
#[test]
fn expressions_have_canonical_texts(rt: HostRuntime) {
    let cases: [(&[u8], &[u8]); 24] = [
        (b"SELECT a OR b FROM t", b"(a OR b)"),
        (b"SELECT a and b FROM t", b"(a AND b)"),
        (b"SELECT a = b FROM t", b"(a = b)"),
        (b"SELECT a == b FROM t", b"(a = b)"),
        (b"SELECT a != b FROM t", b"(a != b)"),
        (b"SELECT a <> b FROM t", b"(a != b)"),
        (b"SELECT a < b FROM t", b"(a < b)"),
        (b"SELECT a <= b FROM t", b"(a <= b)"),
        (b"SELECT a > b FROM t", b"(a > b)"),
        (b"SELECT a >= b FROM t", b"(a >= b)"),
        (b"SELECT a + b FROM t", b"(a + b)"),
        (b"SELECT a - b FROM t", b"(a - b)"),
        (b"SELECT a * b FROM t", b"(a * b)"),
        (b"SELECT a % b FROM t", b"(a % b)"),
        (b"SELECT not a = b FROM t", b"(NOT (a = b))"),
        (b"SELECT -(a + b) FROM t", b"(-(a + b))"),
        (b"SELECT - - 1 FROM t", b"(-(-1))"),
        (b"SELECT `Final` FROM t", b"`Final`"),
        (b"SELECT 'it''s' FROM t", b"'it\\'s'"),
        (b"SELECT ((false)) FROM t", b"FALSE"),
        (b"SELECT `limit`() FROM t", b"`limit`()"),
        (b"SELECT f(a, b + c) FROM t", b"f(a, (b + c))"),
        (
            b"SELECT a OR b AND NOT c = d + e * -f FROM t",
            b"(a OR (b AND (NOT (c = (d + (e * (-f)))))))",
        ),
        (
            b"SELECT a - b + c * d % e FROM t",
            b"((a - b) + ((c * d) % e))",
        ),
    ];
    for (text, expected) in cases {
        assert!(rt; shows(rt.alloc(), text, expected));
    }
}

// Whether a text is cut into tokens that are no statement.
fn is_refused(alloc: Global, text: &[u8]) -> bool {
    match tokens(alloc, text) {
        Ok(tokens) => match statement(alloc, text, &tokens) {
            Err(ParseFault::Syntax) => true,
            _ => false,
        },
        Err(_) => false,
    }
}

// Texts off the grammar of tables and views, of inserts, and of queries and the other forms.
#[test]
fn texts_off_the_grammar_are_refused(rt: HostRuntime) {
    let cases: [&[u8]; 65] = [
        b"CREATE TABLE t () ENGINE = MergeTree ORDER BY k",
        b"CREATE TABLE t (k UInt64 ENGINE = MergeTree ORDER BY k",
        b"CREATE TABLE t (k UInt64,) ENGINE = MergeTree ORDER BY k",
        b"CREATE TABLE t (k) ENGINE = MergeTree ORDER BY k",
        b"CREATE TABLE t (k UInt64(1)) ENGINE = MergeTree ORDER BY k",
        b"CREATE TABLE t (k AggregateFunction()) ENGINE = MergeTree ORDER BY k",
        b"CREATE TABLE t (k aggregatefunction(sum, UInt64)) ENGINE = MergeTree ORDER BY k",
        b"CREATE TABLE t (k UInt64) ENGINE == MergeTree ORDER BY k",
        b"CREATE TABLE t (k UInt64) ENGINE = mergetree ORDER BY k",
        b"CREATE TABLE t (k UInt64) ENGINE = `MergeTree` ORDER BY k",
        b"CREATE TABLE t (k UInt64) ENGINE = MergeTree",
        b"CREATE TABLE t (k UInt64) ENGINE = MergeTree ORDER BY k, k",
        b"CREATE TABLE t (k UInt64) ENGINE = MergeTree ORDER BY ()",
        b"CREATE TABLE t (k UInt64) ENGINE = MergeTree ORDER BY Tuple()",
        b"CREATE TABLE t (k UInt64) ENGINE = MergeTree ORDER BY `tuple`()",
        b"CREATE TABLE t (k UInt64) ENGINE = MergeTree ORDER BY k SETTINGS non_replicated_deduplication_window = '1'",
        b"CREATE TABLE select (k UInt64) ENGINE = MergeTree ORDER BY k",
        b"CREATE VIEW v TO w AS SELECT k FROM t",
        b"CREATE MATERIALIZED VIEW v AS SELECT k FROM t",
        b"CREATE MATERIALIZED VIEW v TO w AS SELECT k FROM t FINAL",
        b"CREATE MATERIALIZED VIEW v TO w AS SELECT k FROM t ORDER BY k",
        b"CREATE MATERIALIZED VIEW v TO w AS SELECT k FROM t LIMIT 1",
        b"INSERT t VALUES (1)",
        b"INSERT INTO t",
        b"INSERT INTO t VALUES",
        b"INSERT INTO t VALUES ()",
        b"INSERT INTO t VALUES (1),",
        b"INSERT INTO t VALUES (1) (2)",
        b"INSERT INTO t VALUES (1 2)",
        b"INSERT INTO t VALUES (1",
        b"INSERT INTO t VALUES (-'x')",
        b"INSERT INTO t VALUES (k)",
        b"INSERT INTO t () VALUES (1)",
        b"INSERT INTO values VALUES (1)",
        b"INSERT INTO TABLE t u VALUES (1)",
        b"INSERT INTO t SETTINGS VALUES (1)",
        b"INSERT INTO t SETTINGS async_insert = 2 VALUES (1)",
        b"INSERT INTO t SETTINGS async_insert = 01 VALUES (1)",
        b"INSERT INTO t SETTINGS async_insert == 1 VALUES (1)",
        b"INSERT INTO t SETTINGS ASYNC_INSERT = 1 VALUES (1)",
        b"INSERT INTO t SETTINGS later = 1 VALUES (1)",
        b"INSERT INTO t SETTINGS deduplicate_blocks_in_dependent_materialized_views = 0 VALUES (1)",
        b"",
        b"SELECT",
        b"`SELECT` * FROM t",
        b"SELECT FROM t",
        b"SELECT k, FROM t",
        b"SELECT k t",
        b"SELECT a = b = c FROM t",
        b"SELECT sum(*) FROM t",
        b"SELECT * AS a FROM t",
        b"SELECT k AS FROM t",
        b"SELECT k FROM t WHERE",
        b"SELECT k FROM t GROUP k",
        b"SELECT k FROM t GROUP BY *",
        b"SELECT k FROM t ORDER BY k + 1",
        b"SELECT k FROM t ORDER BY k ASC DESC",
        b"SELECT k FROM t LIMIT -1",
        b"SELECT k FROM t LIMIT 1 ORDER BY k",
        b"SELECT k FROM t SHOW PARTS t",
        b"SHOW PARTS",
        b"SHOW PART t",
        b"OPTIMIZE TABLE t",
        b"OPTIMIZE t FINAL",
        b"SYSTEM FLUSH ASYNC INSERT QUEUE t",
    ];
    for text in cases {
        assert!(rt; is_refused(rt.alloc(), text));
    }
}

// An insert of many rows.
#[test]
fn many_rows_are_read(rt: HostRuntime) -> Result<(), Fail> {
    let mut text = Vec::new(rt.alloc());
    text.extend_from_slice(b"INSERT INTO t VALUES (0)")?;
    for _ in 0..100_000 {
        text.extend_from_slice(b", (1, 'x')")?;
    }
    assert!(rt; is_read_as(rt.alloc(), text.as_slice(), text.as_slice()));
    Ok(())
}
