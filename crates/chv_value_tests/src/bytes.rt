// Numbers, integers and runs as they are written out by hand, and as they are read back, whole and cut short.
use chv_bytes::{Fixed, IntKind, fix, put_int, put_run, read_fixed, read_int, read_run, unfix};
use std::alloc::AllocError;
use std::test::Fail;

fn low_bytes_come_first() -> bool {
    fix::<1>(255).bytes == [255]
        && fix::<2>(258).bytes == [2, 1]
        && fix::<8>(20).bytes == [20, 0, 0, 0, 0, 0, 0, 0]
        && unfix(&Fixed { bytes: [2, 1] }) == 258
        && unfix(&Fixed { bytes: [255; 8] }) == 18446744073709551615
}

// Three bytes hold a number of two bytes at 0 and at 1.
fn number_at(at: usize) -> Option<(u64, usize)> {
    let (number, behind) = read_fixed::<2>(&[1, 2, 3], at)?;
    Some((unfix(&number), behind))
}

#[test]
fn numbers_have_the_low_byte_first(rt: HostRuntime) {
    assert!(rt; low_bytes_come_first());
    for (at, found) in [
        (0, Some((513, 2))),
        (1, Some((770, 3))),
        (2, None),
        (4, None),
    ] {
        assert!(rt; number_at(at) == found, "at {at}");
    }
}

// An integer of each kind, one behind the other.
const INTEGERS: [u8; 30] = [
    255, 2, 1, 255, 255, 255, 255, 255, 255, 255, 255, 255, 255, 255, 255, 255, 254, 255, 0, 0, 0,
    128, 0, 0, 0, 0, 0, 0, 0, 128,
];

// Puts the unsigned integers and the signed ones behind `out`.
fn put_integers(out: &mut Vec<u8>) -> Result<(), AllocError> {
    put_int(out, IntKind::U8, 255)?;
    put_int(out, IntKind::U16, 258)?;
    put_int(out, IntKind::U32, 4294967295)?;
    put_int(out, IntKind::U64, 18446744073709551615)?;
    put_int(out, IntKind::I8, -1)?;
    put_int(out, IntKind::I16, -2)?;
    put_int(out, IntKind::I32, -2147483648)?;
    put_int(out, IntKind::I64, -9223372036854775808)
}

#[test]
fn an_integer_of_each_kind_is_put(rt: HostRuntime) -> Result<(), Fail> {
    let mut out = Vec::new(rt.alloc());
    put_integers(&mut out)?;
    assert!(rt; out.as_slice() == INTEGERS.as_slice());
    Ok(())
}

#[test]
fn an_integer_of_each_kind_is_read(rt: HostRuntime) {
    for (at, kind, found) in [
        (0, IntKind::U8, Some((255, 1))),
        (1, IntKind::U16, Some((258, 3))),
        (3, IntKind::U32, Some((4294967295, 7))),
        (7, IntKind::U64, Some((18446744073709551615, 15))),
        (15, IntKind::I8, Some((-1, 16))),
        (16, IntKind::I16, Some((-2, 18))),
        (18, IntKind::I32, Some((-2147483648, 22))),
        (22, IntKind::I64, Some((-9223372036854775808, 30))),
        (29, IntKind::U16, None),
        (31, IntKind::U8, None),
    ] {
        assert!(rt; read_int(&INTEGERS, at, kind) == found, "at {at}");
    }
}

// Two runs, the second of no bytes.
const RUNS: [u8; 10] = [2, 0, 0, 0, 118, 49, 0, 0, 0, 0];

#[test]
fn a_run_is_put_behind_its_length(rt: HostRuntime) -> Result<(), Fail> {
    let mut out = Vec::new(rt.alloc());
    put_run(&mut out, b"v1")?;
    put_run(&mut out, b"")?;
    assert!(rt; out.as_slice() == RUNS.as_slice());
    Ok(())
}

// At 7 the length is cut short, and `[3, 0, 0, 0, 118, 49]` lacks a byte of its run.
#[test]
fn a_run_is_read_where_all_of_it_is_there(rt: HostRuntime) {
    for (at, found) in [
        (0, Some((4, 6))),
        (6, Some((10, 10))),
        (7, None),
        (11, None),
    ] {
        assert!(rt; read_run(&RUNS, at) == found, "at {at}");
    }
    assert!(rt; read_run(&[3, 0, 0, 0, 118, 49], 0).is_none());
}
