// Values, kinds and blocks as they are written out by hand, and values as they are read back, whole and off the grammar.
ghost use Rattle.chv_types.specs.Fits.{IsOfScalar};
ghost use Rattle.chv_types.specs.declared.value.Value.TheVariants.{Whole};

use crate::making::{bytes, pair, pairs, text};
use chv_block::{block_bytes, put_kinds, read_value, row_size, spell_value};
use chv_types::{Block, Bytes, Kind, Kinds, Row, Scalar, Value};
use std::alloc::{AllocError, Global};
use std::test::Fail;

// Values of all kinds, one behind the other.
const SPELLED: [u8; 38] = [
    255, 2, 1, 1, 0, 0, 0, 20, 0, 0, 0, 0, 0, 0, 0, 255, 254, 255, 0, 0, 0, 128, 255, 255, 255,
    255, 255, 255, 255, 255, 0, 1, 2, 0, 0, 0, 118, 49,
];

// Puts a number behind `out`.
fn put_whole(out: &mut Vec<u8>, scalar: Scalar, n: i128) -> Result<(), AllocError>
    requires { IsOfScalar scalar (Whole n) }
{
    spell_value(Kind::Plain(scalar), &Value::Whole(n), out)
}

// Puts a number of each kind behind `out`.
fn put_numbers(out: &mut Vec<u8>) -> Result<(), AllocError> {
    put_whole(out, Scalar::UInt8, 255)?;
    put_whole(out, Scalar::UInt16, 258)?;
    put_whole(out, Scalar::UInt32, 1)?;
    put_whole(out, Scalar::UInt64, 20)?;
    put_whole(out, Scalar::Int8, -1)?;
    put_whole(out, Scalar::Int16, -2)?;
    put_whole(out, Scalar::Int32, -2147483648)?;
    put_whole(out, Scalar::Int64, -1)
}

// Puts the two truths and a text behind `out`.
fn put_others(alloc: Global, out: &mut Vec<u8>) -> Result<(), AllocError> {
    spell_value(Kind::Plain(Scalar::Bool), &Value::Truth(false), out)?;
    spell_value(Kind::Plain(Scalar::Bool), &Value::Truth(true), out)?;
    spell_value(Kind::Plain(Scalar::Text), &text(alloc, b"v1")?, out)
}

#[test]
fn a_value_of_each_kind_is_put(rt: HostRuntime) -> Result<(), Fail> {
    let mut out = Vec::new(rt.alloc());
    put_numbers(&mut out)?;
    put_others(rt.alloc(), &mut out)?;
    assert!(rt; out.as_slice() == SPELLED.as_slice());
    Ok(())
}

// Whether this value of a kind is read at a place of the values of all kinds, and ends in front of another.
fn is_read(alloc: Global, kind: Scalar, value: &Value, at: usize, behind: usize) -> bool {
    match read_value(alloc, Kind::Plain(kind), &SPELLED, at) {
        Ok(Some((read, end))) => read == *value && end == behind,
        _ => false,
    }
}

#[test]
fn values_are_read_back(rt: HostRuntime) -> Result<(), Fail> {
    assert!(rt; is_read(rt.alloc(), Scalar::UInt16, &Value::Whole(258), 1, 3));
    assert!(rt;
        is_read(
            rt.alloc(),
            Scalar::Int32,
            &Value::Whole(-2147483648),
            18,
            22
        )
    );
    assert!(rt; is_read(rt.alloc(), Scalar::Bool, &Value::Truth(true), 31, 32));
    let name = text(rt.alloc(), b"v1")?;
    assert!(rt; is_read(rt.alloc(), Scalar::Text, &name, 32, 38));
    Ok(())
}

// Whether bytes are read, and spell no value of the kind at a place.
fn spells_none(alloc: Global, kind: Scalar, bytes: &[u8], at: usize) -> bool {
    match read_value(alloc, Kind::Plain(kind), bytes, at) {
        Ok(read) => read.is_none(),
        Err(_) => false,
    }
}

#[test]
fn what_spells_no_value_is_not_read(rt: HostRuntime) {
    let cases: [(Scalar, &[u8], usize); 7] = [
        (Scalar::Bool, &[2], 0),
        (Scalar::Bool, &[], 0),
        (Scalar::Bool, &[1], 18446744073709551615),
        (Scalar::UInt64, &[1, 2, 3, 4, 5, 6, 7], 0),
        (Scalar::Text, &[1, 0, 0], 0),
        (Scalar::Text, &[2, 0, 0, 0, 118], 0),
        (Scalar::Text, &[255, 255, 255, 255], 0),
    ];
    for (scalar, bytes, at) in cases {
        assert!(rt; spells_none(rt.alloc(), scalar, bytes, at));
    }
}

// The codes of all kinds behind their number.
#[test]
fn each_kind_has_its_code(rt: HostRuntime) -> Result<(), Fail> {
    let kinds = [
        Kind::Plain(Scalar::UInt8),
        Kind::Plain(Scalar::UInt16),
        Kind::Plain(Scalar::UInt32),
        Kind::Plain(Scalar::UInt64),
        Kind::Plain(Scalar::Int8),
        Kind::Plain(Scalar::Int16),
        Kind::Plain(Scalar::Int32),
        Kind::Plain(Scalar::Int64),
        Kind::Plain(Scalar::Bool),
        Kind::Plain(Scalar::Text),
    ];
    let mut out = Vec::new(rt.alloc());
    put_kinds(&mut out, &kinds)?;
    assert!(rt; out.as_slice() == [10, 0, 0, 0, 1, 2, 3, 4, 5, 6, 7, 8, 9, 10].as_slice());
    Ok(())
}

// The bytes of a block of two rows of two numbers.
fn block_of_two(alloc: Global) -> Result<Bytes, AllocError> {
    let mut kinds = Kinds::new(alloc);
    kinds.push(Kind::Plain(Scalar::UInt64))?;
    kinds.push(Kind::Plain(Scalar::UInt64))?;
    let mut block = Block::new(alloc);
    block.push(pair(alloc, 2, 20)?)?;
    block.push(pair(alloc, 1, 10)?)?;
    block_bytes(alloc, &kinds, &block)
}

// The rows stand in the order of arrival, each as its values.
#[test]
fn a_block_has_its_bytes(rt: HostRuntime) -> Result<(), Fail> {
    let wanted: [u8; 46] = [
        2, 0, 0, 0, 4, 4, 2, 0, 0, 0, 0, 0, 0, 0, 2, 0, 0, 0, 0, 0, 0, 0, 20, 0, 0, 0, 0, 0, 0, 0,
        1, 0, 0, 0, 0, 0, 0, 0, 10, 0, 0, 0, 0, 0, 0, 0,
    ];
    assert!(rt; block_of_two(rt.alloc())?.as_slice() == wanted.as_slice());
    Ok(())
}

// How large a row of a number and a text of two bytes is.
fn size_of_two(alloc: Global) -> Result<u64, AllocError> {
    let mut row = Row::new(alloc);
    row.push(Value::Whole(7))?;
    row.push(text(alloc, b"v1")?)?;
    let kinds = [Kind::Plain(Scalar::UInt64), Kind::Plain(Scalar::Text)];
    Ok(row_size(&kinds, &row))
}

#[test]
fn a_row_is_as_large_as_its_values(rt: HostRuntime) -> Result<(), Fail> {
    assert!(rt; size_of_two(rt.alloc())? == 14);
    Ok(())
}
