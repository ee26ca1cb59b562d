// Texts that write values, and texts that write none.
use crate::making::text;
use chv_types::{Scalar, TextFault, Value, parse_text};
use std::alloc::Global;
use std::test::Fail;

// Whether a text writes this value of a kind.
fn writes(alloc: Global, kind: Scalar, text: &[u8], value: &Value) -> bool {
    match parse_text(alloc, kind, text) {
        Ok(found) => found == *value,
        Err(_) => false,
    }
}

#[test]
fn texts_write_values(rt: HostRuntime) -> Result<(), Fail> {
    let cases: [(Scalar, &[u8], Value); 9] = [
        (Scalar::UInt8, b"-0", Value::Whole(0)),
        (
            Scalar::UInt8,
            b"00000000000000000000000000255",
            Value::Whole(255),
        ),
        (
            Scalar::UInt64,
            b"18446744073709551615",
            Value::Whole(18446744073709551615),
        ),
        (Scalar::Int8, b"-128", Value::Whole(-128)),
        (
            Scalar::Int64,
            b"9223372036854775807",
            Value::Whole(9223372036854775807),
        ),
        (Scalar::Bool, b"true", Value::Truth(true)),
        (Scalar::Bool, b"0", Value::Truth(false)),
        (Scalar::Text, b"", text(rt.alloc(), b"")?),
        (Scalar::Text, b"a\0\xff", text(rt.alloc(), b"a\0\xff")?),
    ];
    for (kind, text, value) in &cases {
        assert!(rt; writes(rt.alloc(), *kind, text, value));
    }
    Ok(())
}

// Whether a text writes no value of a kind.
fn is_bad(alloc: Global, kind: Scalar, text: &[u8]) -> bool {
    match parse_text(alloc, kind, text) {
        Err(TextFault::BadLiteral) => true,
        _ => false,
    }
}

#[test]
fn other_texts_are_bad(rt: HostRuntime) {
    let cases: [(Scalar, &[u8]); 9] = [
        (Scalar::UInt8, b""),
        (Scalar::UInt8, b"-"),
        (Scalar::UInt8, b"+1"),
        (Scalar::UInt8, b"1 "),
        (Scalar::UInt8, b"256"),
        (Scalar::UInt64, b"18446744073709551616"),
        (Scalar::Int8, b"-129"),
        (Scalar::Bool, b"TRUE"),
        (Scalar::Bool, b"2"),
    ];
    for (kind, text) in cases {
        assert!(rt; is_bad(rt.alloc(), kind, text));
    }
}

// A text of a mebibyte is a String, and one byte more is too long for it, but no trouble for a number.
#[test]
fn long_texts_are_read(rt: HostRuntime) -> Result<(), Fail> {
    let mut text = Vec::new(rt.alloc());
    text.resize(1048576, b'0')?;
    assert!(rt; parse_text(rt.alloc(), Scalar::Text, &text).is_ok());
    text.push(b'7')?;
    assert!(rt; is_bad(rt.alloc(), Scalar::Text, &text));
    assert!(rt; writes(rt.alloc(), Scalar::UInt8, &text, &Value::Whole(7)));
    Ok(())
}
