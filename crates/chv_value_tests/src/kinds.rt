// Names of kinds and functions, the kinds of results, kinds that widen, and what a column has where nothing is said.
use chv_types::{
    AggForm, AggName, Kind, Scalar, Seen, Value, agg_named, compare_seen, default_value,
    result_kind, scalar_named, widens,
};
use std::alloc::Global;

// Kinds are named letter by letter.
#[test]
fn kinds_have_names(rt: HostRuntime) {
    let cases: [(&[u8], Option<Scalar>); 5] = [
        (b"UInt8", Some(Scalar::UInt8)),
        (b"Int64", Some(Scalar::Int64)),
        (b"String", Some(Scalar::Text)),
        (b"uint8", None),
        (b"UInt", None),
    ];
    for (name, kind) in cases {
        assert!(rt; scalar_named(name) == kind);
    }
}

// Each function has four names, and the plain ones of four functions may be written in any letter case.
#[test]
fn functions_have_names(rt: HostRuntime) {
    let cases: [(&[u8], Option<(AggName, AggForm)>); 8] = [
        (b"COUNT", Some((AggName::Count, AggForm::Plain))),
        (b"mIn", Some((AggName::Min, AggForm::Plain))),
        (b"uniqExact", Some((AggName::UniqExact, AggForm::Plain))),
        (b"sumMerge", Some((AggName::Sum, AggForm::Merge))),
        (b"maxMergeState", Some((AggName::Max, AggForm::MergeState))),
        (b"SUMState", None),
        (b"Uniqexact", None),
        (b"sumStateMerge", None),
    ];
    for (name, named) in cases {
        assert!(rt; agg_named(name) == named);
    }
}

// The kinds of results over values of a kind.
#[test]
fn results_have_kinds(rt: HostRuntime) {
    for (agg, arg, kind) in [
        (AggName::Count, Scalar::UInt64, Some(Scalar::UInt64)),
        (AggName::Sum, Scalar::Int32, Some(Scalar::Int64)),
        (AggName::Sum, Scalar::Bool, None),
        (AggName::Max, Scalar::Text, Some(Scalar::Text)),
        (AggName::UniqExact, Scalar::Bool, Some(Scalar::UInt64)),
    ] {
        assert!(rt; result_kind(agg, arg) == kind);
    }
}

// A kind widens to itself, and an integer kind to those that have all its numbers.
#[test]
fn kinds_widen(rt: HostRuntime) {
    let state = Kind::State(AggName::Sum, Scalar::UInt8);
    for (from, to, wider) in [
        (Kind::Plain(Scalar::UInt8), Kind::Plain(Scalar::Int16), true),
        (
            Kind::Plain(Scalar::UInt64),
            Kind::Plain(Scalar::Int64),
            false,
        ),
        (Kind::Plain(Scalar::Bool), Kind::Plain(Scalar::UInt8), false),
        (state, state, true),
        (state, Kind::Plain(Scalar::UInt64), false),
    ] {
        assert!(rt; widens(from, to) == wider);
    }
}

// Whether a column of the kind has this value where nothing is said.
fn is_default(alloc: Global, kind: Kind, value: Seen<'_>) -> bool {
    match default_value(alloc, kind) {
        Ok(default) => compare_seen(default.seen(), value).is_eq(),
        Err(_) => false,
    }
}

#[test]
fn kinds_have_defaults(rt: HostRuntime) {
    let defaults = [
        (Kind::Plain(Scalar::Int8), Seen::Whole(0)),
        (Kind::Plain(Scalar::Bool), Seen::Truth(false)),
        (Kind::Plain(Scalar::Text), Seen::Text(b"")),
        (
            Kind::State(AggName::UniqExact, Scalar::Text),
            Seen::State(&[0; 8]),
        ),
        (Kind::State(AggName::Min, Scalar::Text), Seen::State(&[0])),
    ];
    for (kind, value) in defaults {
        assert!(rt; is_default(rt.alloc(), kind, value));
    }
}

// A value takes little memory.
#[test]
fn a_value_is_small(rt: HostRuntime) {
    assert!(rt; std::mem::size_of::<Value>() <= 32);
}
