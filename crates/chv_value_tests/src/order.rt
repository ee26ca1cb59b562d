// The order of values, and copies of them.
use crate::making::{bytes, text};
use chv_types::{Row, Value, compare};
use std::alloc::{AllocError, Global};
use std::test::Fail;

// Values from the least to the greatest.
fn ascending(alloc: Global) -> Result<Row, AllocError> {
    let mut row = Row::new(alloc);
    for n in [-9223372036854775808, 0, 18446744073709551615] {
        row.push(Value::Whole(n))?;
    }
    row.push(Value::Truth(false))?;
    row.push(Value::Truth(true))?;
    put_texts(alloc, &mut row)?;
    put_states(alloc, &mut row)?;
    Ok(row)
}

fn put_texts(alloc: Global, row: &mut Row) -> Result<(), AllocError> {
    for bytes in [b"".as_slice(), b"a", b"aa", b"b", b"\xff"] {
        row.push(text(alloc, bytes)?)?;
    }
    Ok(())
}

fn put_states(alloc: Global, row: &mut Row) -> Result<(), AllocError> {
    for spelling in [b"".as_slice(), b"a"] {
        row.push(Value::State(bytes(alloc, spelling)?))?;
    }
    Ok(())
}

// Whether any two values stand to each other as their places do.
fn are_ascending(row: &[Value]) -> bool {
    for (i, a) in row.iter().enumerate() {
        for (j, b) in row.iter().enumerate() {
            if compare(a, b) != i.cmp(&j) {
                return false;
            }
        }
    }
    true
}

#[test]
fn values_have_an_order(rt: HostRuntime) -> Result<(), Fail> {
    assert!(rt; are_ascending(ascending(rt.alloc())?.as_slice()));
    Ok(())
}

// Whether a copy of each value is equal to it.
fn are_copied(alloc: Global, row: &[Value]) -> bool {
    for value in row {
        match value.seen().to_value(alloc) {
            Ok(copied) => {
                if copied != *value {
                    return false;
                }
            }
            Err(_) => return false,
        }
    }
    true
}

#[test]
fn a_copy_is_the_same_value(rt: HostRuntime) -> Result<(), Fail> {
    assert!(rt; are_copied(rt.alloc(), ascending(rt.alloc())?.as_slice()));
    Ok(())
}
