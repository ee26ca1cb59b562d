// States as they are written out by hand, read back and put again; the states of no rows; and bytes that spell none.
use chv_agg::{any_read, any_spell};
use chv_block::read_value;
use chv_types::{AggName, Bytes, Kind, Scalar, Value, default_value};
use std::alloc::{AllocError, Global};
use std::test::Fail;

/// A function, the kind of its argument, and bytes.
type Case = (AggName, Scalar, &'static [u8]);

// A state of each function, at the bounds of kinds of each sort.
const SPELLED: &'static [Case] = &[
    (
        AggName::Count,
        Scalar::UInt64,
        &[255, 255, 255, 255, 255, 255, 255, 255],
    ),
    // 300, and the least number with sign.
    (AggName::Sum, Scalar::UInt8, &[44, 1, 0, 0, 0, 0, 0, 0]),
    (AggName::Sum, Scalar::Int16, &[0, 0, 0, 0, 0, 0, 0, 128]),
    // 5, the greatest UInt16 and the least Int32.
    (AggName::Min, Scalar::UInt8, &[1, 5]),
    (AggName::Min, Scalar::UInt16, &[1, 255, 255]),
    (AggName::Max, Scalar::Int32, &[1, 0, 0, 0, 128]),
    (AggName::Max, Scalar::Bool, &[1, 1]),
    (AggName::Max, Scalar::Text, &[1, 2, 0, 0, 0, b'o', b'k']),
    // 0 and 255; -1 and 1; the empty text and `a`.
    (
        AggName::UniqExact,
        Scalar::UInt8,
        &[2, 0, 0, 0, 0, 0, 0, 0, 0, 255],
    ),
    (
        AggName::UniqExact,
        Scalar::Int8,
        &[2, 0, 0, 0, 0, 0, 0, 0, 255, 1],
    ),
    (
        AggName::UniqExact,
        Scalar::Text,
        &[2, 0, 0, 0, 0, 0, 0, 0, 0, 0, 0, 0, 1, 0, 0, 0, b'a'],
    ),
];

// Bytes off the grammar.
const BROKEN: &'static [Case] = &[
    // A count that lacks a byte; a tag of 2; a value that is not there, and one of another kind.
    (AggName::Count, Scalar::UInt64, &[1, 0, 0, 0, 0, 0, 0]),
    (AggName::Min, Scalar::UInt8, &[2, 5]),
    (AggName::Min, Scalar::UInt16, &[1, 5]),
    (AggName::Max, Scalar::Bool, &[1, 2]),
    // Values that fall, a value that comes twice, and numbers whose bytes rise.
    (
        AggName::UniqExact,
        Scalar::UInt8,
        &[2, 0, 0, 0, 0, 0, 0, 0, 5, 3],
    ),
    (
        AggName::UniqExact,
        Scalar::UInt8,
        &[2, 0, 0, 0, 0, 0, 0, 0, 5, 5],
    ),
    (
        AggName::UniqExact,
        Scalar::Int8,
        &[2, 0, 0, 0, 0, 0, 0, 0, 1, 255],
    ),
    // More values than there are bytes.
    (
        AggName::UniqExact,
        Scalar::UInt8,
        &[3, 0, 0, 0, 0, 0, 0, 0, 5, 6],
    ),
    (
        AggName::UniqExact,
        Scalar::UInt8,
        &[255, 255, 255, 255, 255, 255, 255, 255, 5],
    ),
];

// The functions over a kind.
const FUNCTIONS: [AggName; 5] = [
    AggName::Count,
    AggName::Sum,
    AggName::Min,
    AggName::Max,
    AggName::UniqExact,
];

// The state that bytes begin with, put again.
fn again(alloc: Global, case: &Case) -> Result<Option<Bytes>, AllocError> {
    match any_read(alloc, case.2, 0, case.0, case.1)? {
        Some((state, _)) => Ok(Some(any_spell(alloc, &state, case.1)?)),
        None => Ok(None),
    }
}

// Whether bytes spell a state, and nothing else does it.
fn is_state(alloc: Global, case: &Case) -> bool {
    match again(alloc, case) {
        Ok(Some(spelled)) => spelled.as_slice() == case.2,
        _ => false,
    }
}

#[test]
fn a_state_of_each_function_is_read_and_put(rt: HostRuntime) {
    for case in SPELLED {
        assert!(rt; is_state(rt.alloc(), case));
    }
}

// Whether bytes are read, and spell no state.
fn is_broken(alloc: Global, case: &Case) -> bool {
    match read_value(alloc, Kind::State(case.0, case.1), case.2, 0) {
        Ok(read) => read.is_none(),
        Err(_) => false,
    }
}

#[test]
fn what_spells_no_state_is_not_read(rt: HostRuntime) {
    for case in BROKEN {
        assert!(rt; is_broken(rt.alloc(), case));
    }
}

// Whether the state of no rows is read back as it is.
fn is_default_read(alloc: Global, kind: Kind) -> Result<bool, AllocError> {
    match default_value(alloc, kind)? {
        Value::State(spelling) => is_whole(alloc, kind, &spelling),
        _ => Ok(false),
    }
}

// Whether bytes are a state of a kind, and no more.
fn is_whole(alloc: Global, kind: Kind, bytes: &Bytes) -> Result<bool, AllocError> {
    match read_value(alloc, kind, bytes.as_slice(), 0)? {
        Some((_, end)) => Ok(end == bytes.len()),
        None => Ok(false),
    }
}

#[test]
fn the_state_of_no_rows_is_a_state(rt: HostRuntime) -> Result<(), Fail> {
    for agg in FUNCTIONS {
        assert!(rt; is_default_read(rt.alloc(), Kind::State(agg, Scalar::Int8))?);
    }
    Ok(())
}
