// What is done with states.
ghost use Rattle.std.specs.Prelude.{◌≡◌, IfOk, OnOk, OnErr};
ghost use Rattle.chv_agg.specs.StateBytes.{state_in};
ghost use Rattle.chv_agg.specs.States.{FitsState, join, one_like, unit_of, value_of};
ghost use Rattle.chv_types.specs.Values.{seen_value};

use crate::count::Count;
use crate::extremes::{Greatest, Least};
use crate::merges::{
    merge_count, merge_greatest, merge_least, merge_signed, merge_unsigned, merge_values,
};
use crate::sums::{SignedSum, UnsignedSum};
use crate::uniq::Distinct;
use crate::{Aggregate, AnyAgg, any_read};
use chv_types::{AggName, Scalar, Seen, Value};
use std::alloc::{AllocError, Global};

/// The state of no values.
pub fn any_unit(alloc: Global, agg: AggName, arg: Scalar) -> Result<AnyAgg, AllocError>
    ensures { IfOk result (λ state. state ≡ unit_of agg arg) }
{
    match agg {
        AggName::Count => Ok(AnyAgg::Count(Count::unit(alloc))),
        AggName::Sum => Ok(sum_unit(alloc, arg)),
        AggName::Min => Ok(AnyAgg::Least(Least::unit(alloc))),
        AggName::Max => Ok(AnyAgg::Greatest(Greatest::unit(alloc))),
        AggName::UniqExact => Ok(AnyAgg::Uniq(Distinct::unit(alloc))),
    }
}

// The sum of no values of a kind.
fn sum_unit(alloc: Global, arg: Scalar) -> AnyAgg
    ensures { result ≡ unit_of AggName.Sum arg }
{
    match arg {
        Scalar::Int8 | Scalar::Int16 | Scalar::Int32 | Scalar::Int64 => {
            AnyAgg::SumI(SignedSum::unit(alloc))
        }
        _ => AnyAgg::SumU(UnsignedSum::unit(alloc)),
    }
}

/// Takes one value more.
pub fn any_add(alloc: Global, state: &mut AnyAgg, input: &Value) -> Result<(), AllocError>
    ensures added { OnOk result (state.new ≡ join state.old (one_like state.old input.now)) }
    ensures err { OnErr result (state.new ≡ state.old) }
{
    add_seen(alloc, state, input.seen())
}

/// Takes one value more, which is looked at where it stands.
#[tactic(auto, unfolding(crate::specs::States::join))]
pub(crate) fn add_seen(alloc: Global, state: &mut AnyAgg, input: Seen<'_>) -> Result<(), AllocError>
    ensures added { OnOk result (state.new ≡ join state.old (one_like state.old (seen_value input.entry))) }
    ensures err { OnErr result (state.new ≡ state.old) }
{
    match state {
        AnyAgg::Count(n) => Count::add(alloc, n, input),
        AnyAgg::SumU(n) => UnsignedSum::add(alloc, n, input),
        AnyAgg::SumI(n) => SignedSum::add(alloc, n, input),
        AnyAgg::Least(found) => Least::add(alloc, found, input),
        AnyAgg::Greatest(found) => Greatest::add(alloc, found, input),
        AnyAgg::Uniq(values) => Distinct::add(alloc, values, input),
    }
}

/// Takes the values of another state of the same function.
pub fn any_merge(alloc: Global, state: &mut AnyAgg, other: &AnyAgg) -> Result<(), AllocError>
    ensures merged { OnOk result (state.new ≡ join state.old other.now) }
    ensures err { OnErr result (state.new ≡ state.old) }
{
    match other {
        AnyAgg::Count(n) => merge_count(alloc, state, n),
        AnyAgg::SumU(n) => merge_unsigned(alloc, state, n),
        AnyAgg::SumI(n) => merge_signed(alloc, state, n),
        AnyAgg::Least(found) => merge_least(alloc, state, found),
        AnyAgg::Greatest(found) => merge_greatest(alloc, state, found),
        AnyAgg::Uniq(values) => merge_values(alloc, state, values),
    }
}

/// The value of a state over values of a kind.
pub fn any_finish(alloc: Global, state: &AnyAgg, arg: Scalar) -> Result<Value, AllocError>
    ensures { IfOk result (λ value. value ≡ value_of arg state.now) }
{
    match state {
        AnyAgg::Count(n) => Count::finish(alloc, n, arg),
        AnyAgg::SumU(n) => UnsignedSum::finish(alloc, n, arg),
        AnyAgg::SumI(n) => SignedSum::finish(alloc, n, arg),
        AnyAgg::Least(found) => Least::finish(alloc, found, arg),
        AnyAgg::Greatest(found) => Greatest::finish(alloc, found, arg),
        AnyAgg::Uniq(values) => Distinct::finish(alloc, values, arg),
    }
}

/// The state of a function over values of a kind that bytes spell; of bytes that spell none it is the state of no values.
pub(crate) fn any_whole(
    alloc: Global,
    bytes: &[u8],
    agg: AggName,
    arg: Scalar,
) -> Result<AnyAgg, AllocError>
    ensures whole { IfOk result (λ state. state ≡ state_in agg arg bytes.now) }
    ensures fits { IfOk result (λ state. FitsState agg arg state) }
{
    match any_read(alloc, bytes, 0, agg, arg)? {
        Some((state, behind)) => {
            if behind == bytes.len() {
                Ok(state)
            } else {
                any_unit(alloc, agg, arg)
            }
        }
        None => any_unit(alloc, agg, arg),
    }
}
