// Counts.
use crate::Aggregate;
use crate::reading::read_number;
use chv_types::{Scalar, Seen, Value};
use std::alloc::{AllocError, Global};

/// How many values there are, modulo 2^64.
#[derive(Clone, Copy, Debug)]
pub struct Count;

impl Aggregate for Count {
    ghost use Rattle.chv_agg.specs.AggregateLaws.{keeps_none};
    ghost use Rattle.chv_agg.specs.StateBytes.{agg_number, unsigned_bytes};
    ghost use Rattle.chv_agg.specs.SpellingLaws.{unsigned_spelling};
    ghost use Rattle.std.proofs.Common.{ap};
    ghost use Rattle.chv_agg.specs.CountLaws.{count_laws, count_state};
    ghost use Rattle.chv_agg.specs.Functions.{count_one, unsigned_fits, unsigned_join, unsigned_value};
    ghost use Rattle.chv_agg.specs.Lists.{aggregate_of};
    ghost use Rattle.chv_types.specs.declared.aggregate.AggName.TheVariants as agg;

    type State = u64;

    const TAG: u8 = 0;

    ghost TAG = { agg_number agg.Count };

    ghost fits = { unsigned_fits };

    ghost counted = { keeps_none };

    ghost spelling = { unsigned_bytes };

    ghost none = { 0 };

    ghost one = { count_one };

    ghost join = { unsigned_join };

    ghost value_of = { unsigned_value };

    ghost result_of = { aggregate_of agg.Count };

    ghost laws = { count_laws };

    ghost spelled = { unsigned_spelling };

    ghost valued = { λ arg values of. ap (unsigned_value arg) (count_state values) };

    fn unit(_alloc: Global) -> u64 {
        0
    }

    fn add(_alloc: Global, state: &mut u64, _input: Seen<'_>) -> Result<(), AllocError> {
        *state = state.wrapping_add(1);
        Ok(())
    }

    fn merge(_alloc: Global, state: &mut u64, other: &u64) -> Result<(), AllocError> {
        *state = state.wrapping_add(*other);
        Ok(())
    }

    fn finish(_alloc: Global, state: &u64, _arg: Scalar) -> Result<Value, AllocError> {
        Ok(Value::Whole(i128::from(*state)))
    }

    fn spell(state: &u64, _arg: Scalar, out: &mut Vec<u8>) -> Result<(), AllocError> {
        out.extend_from_slice(&state.to_le_bytes())
    }

    fn read(
        _alloc: Global,
        bytes: &[u8],
        at: usize,
        _arg: Scalar,
    ) -> Result<Option<(u64, usize)>, AllocError> {
        Ok(read_number(bytes, at))
    }
}
