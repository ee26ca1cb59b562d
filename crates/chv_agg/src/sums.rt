// Sums, modulo 2^64.
ghost use Rattle.std.specs.Prelude.{◌≡◌, ◌+ℤ◌};
ghost use Rattle.std.specs.Int.{int_wrap, w64};
ghost use Rattle.chv_agg.specs.States.{signed_of, unsigned_of};
ghost use Rattle.chv_types.specs.Order.{number};
ghost use Rattle.chv_types.specs.Values.{seen_value};

use crate::Aggregate;
use crate::reading::read_number;
use chv_bytes::{IntKind, put_int, read_int};
use chv_types::{Scalar, Seen, Value};
use std::alloc::{AllocError, Global};

// The number of a value.
fn number(input: Seen<'_>) -> i128
    ensures { result ≡ number (seen_value input.entry) }
{
    match input {
        Seen::Whole(n) => n,
        Seen::Truth(truth) => i128::from(truth),
        _ => 0,
    }
}

// The number of 64 bits with sign that is equal to a number modulo 2^64.
fn signed(n: i128) -> i64
    ensures { result ≡ int_wrap w64 n }
{
    (n.rem_euclid(1 << 64) as u64).cast_signed()
}

// The number of a value with 64 bits and a sign, modulo 2^64.
fn signed_number(input: Seen<'_>) -> i64
    ensures { result ≡ signed_of (number (seen_value input.entry)) }
{
    signed(number(input))
}

// The number of a value with 64 bits and no sign, modulo 2^64.
fn unsigned_number(input: Seen<'_>) -> u64
    ensures { result ≡ unsigned_of (number (seen_value input.entry)) }
{
    signed(number(input)).cast_unsigned()
}

// The sum of two numbers with 64 bits and a sign, modulo 2^64.
fn signed_sum(a: i64, b: i64) -> i64
    ensures { result ≡ signed_of (a +ℤ b) }
{
    a.wrapping_add(b)
}

/// The sum of numbers without sign, modulo 2^64.
#[derive(Clone, Copy, Debug)]
pub struct UnsignedSum;

impl Aggregate for UnsignedSum {
    ghost use Rattle.chv_agg.specs.AggregateLaws.{keeps_none};
    ghost use Rattle.chv_agg.specs.StateBytes.{agg_number, unsigned_bytes};
    ghost use Rattle.chv_agg.specs.SpellingLaws.{unsigned_spelling};
    ghost use Rattle.chv_types.specs.declared.aggregate.AggName.TheVariants as agg;
    ghost use Rattle.std.proofs.Common.{ap};
    ghost use Rattle.chv_agg.specs.Functions.{unsigned_fits, unsigned_join, unsigned_one, unsigned_value};
    ghost use Rattle.chv_agg.specs.Lists.{sum_value, total};
    ghost use Rattle.chv_agg.specs.SumLaws.{unsigned_sum_laws, unsigned_sum_state};
    ghost use Rattle.std.specs.Prelude.{false};

    type State = u64;

    const TAG: u8 = 1;

    ghost TAG = { agg_number agg.Sum };

    ghost fits = { unsigned_fits };

    ghost counted = { keeps_none };

    ghost spelling = { unsigned_bytes };

    ghost none = { 0 };

    ghost one = { unsigned_one };

    ghost join = { unsigned_join };

    ghost value_of = { unsigned_value };

    ghost result_of = { λ arg values. sum_value false (total values) };

    ghost laws = { unsigned_sum_laws };

    ghost spelled = { unsigned_spelling };

    ghost valued = { λ arg values of. ap (unsigned_value arg) (unsigned_sum_state values) };

    fn unit(_alloc: Global) -> u64 {
        0
    }

    fn add(_alloc: Global, state: &mut u64, input: Seen<'_>) -> Result<(), AllocError> {
        *state = state.wrapping_add(unsigned_number(input));
        Ok(())
    }

    fn merge(_alloc: Global, state: &mut u64, other: &u64) -> Result<(), AllocError> {
        *state = state.wrapping_add(*other);
        Ok(())
    }

    fn finish(_alloc: Global, state: &u64, _arg: Scalar) -> Result<Value, AllocError> {
        Ok(Value::Whole(i128::from(*state)))
    }

    fn spell(state: &u64, _arg: Scalar, out: &mut Vec<u8>) -> Result<(), AllocError> {
        out.extend_from_slice(&state.to_le_bytes())
    }

    fn read(
        _alloc: Global,
        bytes: &[u8],
        at: usize,
        _arg: Scalar,
    ) -> Result<Option<(u64, usize)>, AllocError> {
        Ok(read_number(bytes, at))
    }
}

/// The sum of numbers with sign, modulo 2^64.
#[derive(Clone, Copy, Debug)]
pub struct SignedSum;

impl Aggregate for SignedSum {
    ghost use Rattle.chv_agg.specs.AggregateLaws.{keeps_none};
    ghost use Rattle.chv_agg.specs.StateBytes.{agg_number, signed_bytes};
    ghost use Rattle.chv_agg.specs.SpellingLaws.{signed_spelling};
    ghost use Rattle.chv_types.specs.declared.aggregate.AggName.TheVariants as agg;
    ghost use Rattle.std.proofs.Common.{ap};
    ghost use Rattle.chv_agg.specs.Functions.{signed_fits, signed_join, signed_one, signed_value};
    ghost use Rattle.chv_agg.specs.Lists.{sum_value, total};
    ghost use Rattle.chv_agg.specs.SumLaws.{signed_sum_laws, signed_sum_state};
    ghost use Rattle.std.specs.Prelude.{pos, true};

    type State = i64;

    const TAG: u8 = 1;

    ghost TAG = { agg_number agg.Sum };

    ghost fits = { signed_fits };

    ghost counted = { keeps_none };

    ghost spelling = { signed_bytes };

    ghost none = { pos 0 };

    ghost one = { signed_one };

    ghost join = { signed_join };

    ghost value_of = { signed_value };

    ghost result_of = { λ arg values. sum_value true (total values) };

    ghost laws = { signed_sum_laws };

    ghost spelled = { signed_spelling };

    ghost valued = { λ arg values of. ap (signed_value arg) (signed_sum_state values) };

    fn unit(_alloc: Global) -> i64 {
        0
    }

    fn add(_alloc: Global, state: &mut i64, input: Seen<'_>) -> Result<(), AllocError> {
        *state = signed_sum(*state, signed_number(input));
        Ok(())
    }

    fn merge(_alloc: Global, state: &mut i64, other: &i64) -> Result<(), AllocError> {
        *state = signed_sum(*state, *other);
        Ok(())
    }

    fn finish(_alloc: Global, state: &i64, _arg: Scalar) -> Result<Value, AllocError> {
        Ok(Value::Whole(i128::from(*state)))
    }

    fn spell(state: &i64, _arg: Scalar, out: &mut Vec<u8>) -> Result<(), AllocError> {
        put_int(out, IntKind::I64, i128::from(*state))
    }

    fn read(
        _alloc: Global,
        bytes: &[u8],
        at: usize,
        _arg: Scalar,
    ) -> Result<Option<(i64, usize)>, AllocError> {
        match read_int(bytes, at, IntKind::I64) {
            Some((sum, behind)) => Ok(Some((sum as i64, behind))),
            None => Ok(None),
        }
    }
}
