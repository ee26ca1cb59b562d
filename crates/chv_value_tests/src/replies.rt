// The lines that clients are told.
use crate::making::{bytes, pairs, row_of, shown, text};
use chv_ast::Refusal;
use chv_text::{Line, line_insert, line_ok, line_refused, line_rows};
use chv_types::{AggName, Block, Bytes, Kind, Scalar, Value};
use std::alloc::{AllocError, Global};
use std::test::Fail;

fn says(line: &Line, text: &[u8]) -> bool {
    line.as_slice() == text
}

#[test]
fn replies_are_lines(rt: HostRuntime) {
    assert!(rt; says(&line_ok(0), b"@0 Ok.\n"));
    assert!(rt; says(&line_insert(0, 1, 0), b"@0 Ok. 1 written, 0 skipped\n"));
    assert!(rt; says(&line_rows(0, 2), b"@0 Ok. 2 rows\n"));
    let most = line_rows(15, 18446744073709551615);
    assert!(rt; says(&most, b"@15 Ok. 18446744073709551615 rows\n"));
    let refused = line_refused(15, Refusal::UnknownTable);
    assert!(rt; says(&refused, b"@15 Refused 2 UnknownTable\n"));
}

// A row of one value of a kind as text.
fn told(alloc: Global, kind: Kind, value: Value) -> Result<Bytes, AllocError> {
    let mut block = Block::new(alloc);
    block.push(row_of(alloc, value)?)?;
    shown(alloc, &[kind], &block)
}

// Whether a value of a kind has this text.
fn is_told(alloc: Global, kind: Kind, value: Value, text: &[u8]) -> bool {
    match told(alloc, kind, value) {
        Ok(told) => told.as_slice() == text,
        Err(_) => false,
    }
}

#[test]
fn numbers_and_truths_have_texts(rt: HostRuntime) {
    let whole = Kind::Plain(Scalar::Int16);
    let truth = Kind::Plain(Scalar::Bool);
    assert!(rt; is_told(rt.alloc(), whole, Value::Whole(-255), b"-255\n"));
    assert!(rt; is_told(rt.alloc(), truth, Value::Truth(true), b"true\n"));
    assert!(rt; is_told(rt.alloc(), truth, Value::Truth(false), b"false\n"));
}

// Eight bytes are escaped, and another stands as it is.
#[test]
fn a_text_has_escapes(rt: HostRuntime) -> Result<(), Fail> {
    let all = text(rt.alloc(), &[8, 9, 10, 12, 13, 0, 39, 92, 97, 200])?;
    let kind = Kind::Plain(Scalar::Text);
    assert!(rt; is_told(rt.alloc(), kind, all, b"\\b\\t\\n\\f\\r\\0\\'\\\\a\xc8\n"));
    Ok(())
}

#[test]
fn a_state_is_hexadecimal(rt: HostRuntime) -> Result<(), Fail> {
    let state = Value::State(bytes(rt.alloc(), &[0, 9, 160, 255])?);
    let kind = Kind::State(AggName::Min, Scalar::UInt64);
    assert!(rt; is_told(rt.alloc(), kind, state, b"0009a0ff\n"));
    Ok(())
}

// Rows of two numbers as text.
fn told_pairs(alloc: Global, rows: &[(i128, i128)]) -> Result<Bytes, AllocError> {
    let kinds = [Kind::Plain(Scalar::Int64); 2];
    shown(alloc, &kinds, &pairs(alloc, rows)?)
}

// Rows in order, with tabs between the values of each; a block without rows has no line.
#[test]
fn rows_are_lines(rt: HostRuntime) -> Result<(), Fail> {
    let cases: [(&[(i128, i128)], &[u8]); 2] = [(&[(7, 1), (0, -1)], b"7\t1\n0\t-1\n"), (&[], b"")];
    for (rows, text) in cases {
        assert!(rt; told_pairs(rt.alloc(), rows)?.as_slice() == text);
    }
    Ok(())
}
