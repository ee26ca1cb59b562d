// States with the values of other states, which are borrowed.
ghost use Rattle.std.specs.Prelude.{◌≡◌, IfOk, OnOk, OnErr};
ghost use Rattle.chv_agg.specs.States.{join};

use crate::count::Count;
use crate::extremes::{Greatest, Least, copied_found};
use crate::sums::{SignedSum, UnsignedSum};
use crate::uniq::Distinct;
use crate::{Aggregate, AnyAgg, ValueSet};
use chv_types::Value;
use std::alloc::{AllocError, Global};

/// Takes what was counted elsewhere.
#[tactic(auto, unfolding(crate::specs::States::join))]
pub(crate) fn merge_count(alloc: Global, state: &mut AnyAgg, n: &u64) -> Result<(), AllocError>
    ensures merged { OnOk result (state.new ≡ join state.old (AnyAgg.Count n.now)) }
    ensures err { OnErr result (state.new ≡ state.old) }
{
    match state {
        AnyAgg::Count(m) => Count::merge(alloc, m, n),
        _ => {
            *state = AnyAgg::Count(*n);
            Ok(())
        }
    }
}

/// Takes a sum of numbers without sign.
#[tactic(auto, unfolding(crate::specs::States::join))]
pub(crate) fn merge_unsigned(alloc: Global, state: &mut AnyAgg, n: &u64) -> Result<(), AllocError>
    ensures merged { OnOk result (state.new ≡ join state.old (AnyAgg.SumU n.now)) }
    ensures err { OnErr result (state.new ≡ state.old) }
{
    match state {
        AnyAgg::Count(_) => Ok(()),
        AnyAgg::SumU(m) => UnsignedSum::merge(alloc, m, n),
        _ => {
            *state = AnyAgg::SumU(*n);
            Ok(())
        }
    }
}

/// Takes a sum of numbers with sign.
#[tactic(auto, unfolding(crate::specs::States::join))]
pub(crate) fn merge_signed(alloc: Global, state: &mut AnyAgg, n: &i64) -> Result<(), AllocError>
    ensures merged { OnOk result (state.new ≡ join state.old (AnyAgg.SumI n.now)) }
    ensures err { OnErr result (state.new ≡ state.old) }
{
    match state {
        AnyAgg::Count(_) | AnyAgg::SumU(_) => Ok(()),
        AnyAgg::SumI(m) => SignedSum::merge(alloc, m, n),
        _ => {
            *state = AnyAgg::SumI(*n);
            Ok(())
        }
    }
}

/// Takes what was the least elsewhere.
#[tactic(auto, unfolding(crate::specs::States::join))]
pub(crate) fn merge_least(
    alloc: Global,
    state: &mut AnyAgg,
    found: &Option<Value>,
) -> Result<(), AllocError>
    ensures merged { OnOk result (state.new ≡ join state.old (AnyAgg.Least found.now)) }
    ensures err { OnErr result (state.new ≡ state.old) }
{
    match state {
        AnyAgg::Least(kept) => Least::merge(alloc, kept, found),
        AnyAgg::Greatest(_) | AnyAgg::Uniq(_) => {
            *state = AnyAgg::Least(copied_found(alloc, found)?);
            Ok(())
        }
        _ => Ok(()),
    }
}

/// Takes what was the greatest elsewhere.
#[tactic(auto, unfolding(crate::specs::States::join))]
pub(crate) fn merge_greatest(
    alloc: Global,
    state: &mut AnyAgg,
    found: &Option<Value>,
) -> Result<(), AllocError>
    ensures merged { OnOk result (state.new ≡ join state.old (AnyAgg.Greatest found.now)) }
    ensures err { OnErr result (state.new ≡ state.old) }
{
    match state {
        AnyAgg::Greatest(kept) => Greatest::merge(alloc, kept, found),
        AnyAgg::Uniq(_) => {
            *state = AnyAgg::Greatest(copied_found(alloc, found)?);
            Ok(())
        }
        _ => Ok(()),
    }
}

/// Takes the different values of elsewhere.
#[tactic(auto, unfolding(crate::specs::States::join))]
pub(crate) fn merge_values(
    alloc: Global,
    state: &mut AnyAgg,
    values: &ValueSet,
) -> Result<(), AllocError>
    ensures merged { OnOk result (state.new ≡ join state.old (AnyAgg.Uniq values.now)) }
    ensures err { OnErr result (state.new ≡ state.old) }
{
    match state {
        AnyAgg::Uniq(kept) => Distinct::merge(alloc, kept, values),
        _ => Ok(()),
    }
}
