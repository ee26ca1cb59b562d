// Parts of states, whole and off the grammar.
ghost use Rattle.std.specs.Prelude.{IfOk};
ghost use Rattle.chv_part.specs.Books.{AreColumns};

use crate::part::{framed, is_kept, is_shapeless};
use chv_types::{AggName, Kind, Kinds, Scalar};
use std::alloc::{AllocError, Global};

// The body of the part with two rows of states: a sum, a least value and different values.
const STATES: [u8; 55] = [
    3, 0, 0, 0, 17, 5, 18, 1, 20, 1, 2, 0, 0, 0, 0, 0, 0, 0, // the head
    255, 255, 255, 255, 255, 255, 255, 255, 0, 1, 0, 0, 0, 0, 0, 0, // -1 and 256
    0, 1, 5, // no value, and 5
    0, 0, 0, 0, 0, 0, 0, 0, 2, 0, 0, 0, 0, 0, 0, 0, 3, 5, // no values, and 3 and 5
];

const STATES_TEXT: &[u8] =
    b"ffffffffffffffff\t00\t0000000000000000\n0001000000000000\t0105\t02000000000000000305\n";

fn states(alloc: Global) -> Result<Kinds, AllocError>
    ensures { IfOk result AreColumns }
{
    let kinds = [
        Kind::State(AggName::Sum, Scalar::Int8),
        Kind::State(AggName::Min, Scalar::UInt8),
        Kind::State(AggName::UniqExact, Scalar::UInt8),
    ];
    Ok(Kinds::from_slice(alloc, &kinds)?)
}

fn keeps_states(alloc: Global) -> bool {
    let mut file = [0; 128];
    match states(alloc) {
        Ok(kinds) => is_kept(alloc, &kinds, framed(&mut file, &STATES), STATES_TEXT),
        Err(_) => false,
    }
}

#[test]
fn a_part_of_states_reads_as_its_rows(rt: HostRuntime) {
    assert!(rt; keeps_states(rt.alloc()));
}

// Bodies off the grammar.
const SHAPELESS: &'static [(AggName, &'static [u8])] = &[
    // States of another function, and over values of another kind.
    (
        AggName::Min,
        &[1, 0, 0, 0, 19, 1, 1, 0, 0, 0, 0, 0, 0, 0, 1, 5],
    ),
    (
        AggName::Min,
        &[1, 0, 0, 0, 18, 5, 1, 0, 0, 0, 0, 0, 0, 0, 1, 5],
    ),
    // A tag of 2, and more states than bytes.
    (
        AggName::Min,
        &[1, 0, 0, 0, 18, 1, 1, 0, 0, 0, 0, 0, 0, 0, 2, 5],
    ),
    (
        AggName::Min,
        &[1, 0, 0, 0, 18, 1, 2, 0, 0, 0, 0, 0, 0, 0, 0],
    ),
    // Values that fall, and more of them than there are bytes.
    (
        AggName::UniqExact,
        &[
            1, 0, 0, 0, 20, 1, 1, 0, 0, 0, 0, 0, 0, 0, 2, 0, 0, 0, 0, 0, 0, 0, 5, 3,
        ],
    ),
    (
        AggName::UniqExact,
        &[
            1, 0, 0, 0, 20, 1, 1, 0, 0, 0, 0, 0, 0, 0, 255, 255, 255, 255, 255, 255, 255, 255, 5,
        ],
    ),
];

#[test]
fn a_broken_state_has_no_shape(rt: HostRuntime) {
    for case in SHAPELESS {
        assert!(rt; is_shapeless(rt.alloc(), Kind::State(case.0, Scalar::UInt8), case.1));
    }
}
