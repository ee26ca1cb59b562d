// Blocks as a table keeps them together, the states of a key merged by hand, and which parts become one.
ghost use Rattle.std.specs.Prelude.{◌≡◌, [], ◌∷◌, IfOk, IfSome};
ghost use Rattle.chv_agg.specs.OfKinds.{AllAreOf, AreOf};
ghost use Rattle.chv_types.specs.declared.kind.Kind.TheVariants.{Plain};
ghost use Rattle.chv_types.specs.declared.kind.Scalar.TheVariants.{UInt64};

use crate::making::{row_of, shown};
use chv_block::read_value;
use chv_commit::PartRow;
use chv_merge::{Run, merge_blocks, normal_by, pick};
use chv_types::{AggName, Block, Bytes, Engine, Kind, Kinds, Places, Row, Scalar, Value};
use std::alloc::{AllocError, Global};
use std::test::Fail;

/// A key, and the bytes of a state.
type Pair = (u64, &'static [u8]);

// The kinds of a key and a state.
fn columns(alloc: Global, state: Kind) -> Result<Kinds, AllocError>
    ensures { IfOk result (λ kinds. kinds ≡ Plain UInt64 ∷ state ∷ []) }
{
    Kinds::from_slice(alloc, &[Kind::Plain(Scalar::UInt64), state])
}

// The row of a key and a state; none where the bytes spell no state.
fn row(alloc: Global, state: Kind, pair: &Pair) -> Result<Option<Row>, AllocError>
    ensures { IfOk result (λ row. IfSome row (AreOf (Plain UInt64 ∷ state ∷ []))) }
{
    match read_value(alloc, state, pair.1, 0)? {
        Some((value, _)) => {
            let mut row = row_of(alloc, Value::Whole(i128::from(pair.0)))?;
            row.push(value)?;
            Ok(Some(row))
        }
        None => Ok(None),
    }
}

// The block of two rows; one of no rows where bytes spell no state.
fn block(alloc: Global, state: Kind, pairs: &[Pair; 2]) -> Result<Block, AllocError>
    ensures { IfOk result (AllAreOf (Plain UInt64 ∷ state ∷ [])) }
{
    let mut rows = Block::new(alloc);
    match (row(alloc, state, &pairs[0])?, row(alloc, state, &pairs[1])?) {
        (Some(first), Some(second)) => {
            rows.push(first)?;
            rows.push(second)?;
        }
        _ => (),
    }
    Ok(rows)
}

const SUM: Kind = Kind::State(AggName::Sum, Scalar::UInt64);

// Two blocks of sums as a table keeps them together, as text.
fn sums(alloc: Global, engine: Engine, key: &[u32]) -> Result<Bytes, AllocError> {
    let kinds = columns(alloc, SUM)?;
    let key = Places::from_slice(alloc, key)?;
    let first = block(
        alloc,
        SUM,
        &[
            (2, &[5, 0, 0, 0, 0, 0, 0, 0]),
            (1, &[7, 0, 0, 0, 0, 0, 0, 0]),
        ],
    )?;
    let second = block(
        alloc,
        SUM,
        &[
            (1, &[255, 0, 0, 0, 0, 0, 0, 0]),
            (3, &[1, 0, 0, 0, 0, 0, 0, 0]),
        ],
    )?;
    let rows = merge_blocks(alloc, engine, &kinds, &key, vec![in alloc; first, second]?)?;
    shown(alloc, kinds.as_slice(), &rows)
}

// Whether two blocks of sums are kept as these rows.
fn are_sums(alloc: Global, engine: Engine, key: &[u32], wanted: &[u8]) -> bool {
    match sums(alloc, engine, key) {
        Ok(rows) => rows.as_slice() == wanted,
        Err(_) => false,
    }
}

// The sums are 5 at the key 2; 7 and 255 at 1; and 1 at 3.
#[test]
fn blocks_are_kept_together(rt: HostRuntime) {
    let cases: [(Engine, &[u32], &[u8]); 3] = [
        (
            Engine::Aggregating,
            &[0],
            b"1\t0601000000000000\n2\t0500000000000000\n3\t0100000000000000\n",
        ),
        (Engine::Aggregating, &[], b"1\t0c01000000000000\n"),
        (
            Engine::MergeTree,
            &[0],
            b"1\t0700000000000000\n1\tff00000000000000\n2\t0500000000000000\n3\t0100000000000000\n",
        ),
    ];
    for (engine, key, wanted) in cases {
        assert!(rt; are_sums(rt.alloc(), engine, key, wanted));
    }
}

const SET: Kind = Kind::State(AggName::UniqExact, Scalar::UInt8);

// The sets of 2 and 3 and of 1 and 2 at one key, as a table keeps them, as text.
fn sets(alloc: Global, engine: Engine) -> Result<Bytes, AllocError> {
    let kinds = columns(alloc, SET)?;
    let key = Places::from_slice(alloc, &[0])?;
    let rows = block(
        alloc,
        SET,
        &[
            (1, &[2, 0, 0, 0, 0, 0, 0, 0, 2, 3]),
            (1, &[2, 0, 0, 0, 0, 0, 0, 0, 1, 2]),
        ],
    )?;
    let rows = normal_by(alloc, engine, &kinds, &key, rows)?;
    shown(alloc, kinds.as_slice(), &rows)
}

// Whether the two sets are kept as these rows.
fn are_sets(alloc: Global, engine: Engine, wanted: &[u8]) -> bool {
    match sets(alloc, engine) {
        Ok(rows) => rows.as_slice() == wanted,
        Err(_) => false,
    }
}

#[test]
fn sets_of_a_key_are_joined(rt: HostRuntime) {
    let cases: [(Engine, &[u8]); 2] = [
        (Engine::Aggregating, b"1\t0300000000000000010203\n"),
        (
            Engine::MergeTree,
            b"1\t02000000000000000102\n1\t02000000000000000203\n",
        ),
    ];
    for (engine, wanted) in cases {
        assert!(rt; are_sets(rt.alloc(), engine, wanted));
    }
}

// What is picked of parts of these levels.
fn picked(alloc: Global, levels: &[u64]) -> Result<Option<Run>, AllocError> {
    let mut layout = Vec::new(alloc);
    for level in levels {
        layout.push(PartRow {
            lo: 1,
            hi: 1,
            level: *level,
            part: 1,
            rows: 1,
        })?;
    }
    Ok(pick(&layout))
}

// Whether eight parts of a level are picked from this place on, or none are.
fn is_picked(alloc: Global, levels: &[u64], wanted: Option<(usize, u64)>) -> bool {
    match (picked(alloc, levels), wanted) {
        (Ok(Some(run)), Some((from, level))) => {
            run == Run {
                from,
                count: 8,
                level,
            }
        }
        (Ok(None), None) => true,
        _ => false,
    }
}

// The levels, and the first of the parts that are picked with its level.
#[test]
fn eight_adjacent_parts_of_a_level_are_picked(rt: HostRuntime) {
    let cases: [(&[u64], Option<(usize, u64)>); 7] = [
        (&[0; 7], None),
        (&[0; 8], Some((0, 0))),
        (&[0; 9], Some((0, 0))),
        (&[1, 0, 0, 0, 0, 0, 0, 0, 0], Some((1, 0))),
        (&[2, 1, 1, 1, 1, 1, 1, 1, 1, 0], Some((1, 1))),
        (
            &[1, 1, 1, 1, 1, 1, 1, 1, 0, 0, 0, 0, 0, 0, 0, 0],
            Some((8, 0)),
        ),
        (&[0, 0, 0, 0, 1, 0, 0, 0, 0], None),
    ];
    for (levels, wanted) in cases {
        assert!(rt; is_picked(rt.alloc(), levels, wanted));
    }
}
