// Different values that are gathered as they come.
ghost use Rattle.std.specs.Prelude.{◌≡◌, ◌++◌, ◌∷◌, [], IfOk, IfErr, OnOk, List};
ghost use Rattle.chv_agg.specs.States.{join, one_like, unit_of, value_of};
ghost use Rattle.chv_agg.specs.Tallies.{worked};
ghost use Rattle.chv_agg.specs.declared.any_agg.AnyAgg.{AnyAgg as SomeState};
ghost use Rattle.chv_types.specs.Members.{members};
ghost use Rattle.chv_types.specs.Order.{value_cmp};
ghost use Rattle.chv_types.specs.Values.{seen_value};
ghost use Rattle.chv_types.specs.declared.value.Value.{Value as SomeValue};

use crate::count::Count;
use crate::states::add_seen;
use crate::sums::{SignedSum, UnsignedSum};
use crate::uniq::{move_values, settle};
use crate::{Aggregate, AnyAgg, ValueSet, any_finish, any_merge, any_unit};
use chv_types::{AggName, Scalar, Seen, Value};
use sqlite_items::Items;
use std::alloc::{AllocError, Global};

/// What a state is while it is worked on. Counts and sums take little room, since there is one for each group.
#[derive(Debug, Drop)]
pub(crate) enum Work {
    /// How many values there were, modulo 2^64.
    Count(u64),
    /// The sum of numbers without sign, modulo 2^64.
    SumU(u64),
    /// The sum of numbers with sign, modulo 2^64.
    SumI(i64),
    /// Values of which the different ones are meant.
    Gathered(Vec<Value>),
    /// Another state.
    Joined(Box<AnyAgg>),
}

/// No values yet.
pub(crate) fn begin(alloc: Global, agg: AggName, arg: Scalar) -> Result<Work, AllocError>
    ensures { IfOk result (λ work. worked work ≡ unit_of agg arg) }
{
    match agg {
        AggName::Count => Ok(Work::Count(Count::unit(alloc))),
        AggName::UniqExact => Ok(Work::Gathered(Vec::new(alloc))),
        _ => work_on(alloc, any_unit(alloc, agg, arg)?),
    }
}

// Goes on with a state.
fn work_on(alloc: Global, state: AnyAgg) -> Result<Work, AllocError>
    ensures { IfOk result (λ work. worked work ≡ state) }
{
    match state {
        AnyAgg::Count(n) => Ok(Work::Count(n)),
        AnyAgg::SumU(n) => Ok(Work::SumU(n)),
        AnyAgg::SumI(n) => Ok(Work::SumI(n)),
        other => Ok(Work::Joined(Box::new(alloc, other)?)),
    }
}

/// Takes one value more.
#[tactic(auto, unfolding(crate::specs::States::join), using(crate::proofs::TallyLemmas::gathered_laws))]
pub(crate) fn take_value(alloc: Global, work: &mut Work, input: Seen<'_>) -> Result<(), AllocError>
    ensures { OnOk result (worked work.new ≡ join (worked work.old) (one_like (worked work.old) (seen_value input.entry))) }
{
    match work {
        Work::Count(n) => Count::add(alloc, n, input),
        Work::SumU(n) => UnsignedSum::add(alloc, n, input),
        Work::SumI(n) => SignedSum::add(alloc, n, input),
        Work::Gathered(values) => gather(values, input.to_value(alloc)?),
        Work::Joined(state) => add_seen(alloc, &mut **state, input),
    }
}

// Gathers a value more.
fn gather(values: &mut Vec<Value>, value: Value) -> Result<(), AllocError>
    ensures { OnOk result (members value_cmp values.new.items ≡ members value_cmp (members value_cmp values.old.items ++ value ∷ [])) }
{
    make_room(values, 1)?;
    values.push(value)?;
    Ok(())
}

// Gathers the values of a set.
fn gather_set(values: &mut Vec<Value>, mut set: ValueSet) -> Result<(), AllocError>
    ensures { OnOk result (members value_cmp values.new.items ≡ members value_cmp (members value_cmp values.old.items ++ set)) }
{
    make_room(values, set.len())?;
    move_values(&mut set, values)
}

// Sees to it that values settle before their number doubles: where there is no room for so many more.
#[tactic(auto, using(crate::proofs::TallyLemmas::gathered_laws))]
fn make_room(values: &mut Vec<Value>, more: usize) -> Result<(), AllocError>
    ensures { OnOk result (members value_cmp values.new.items ≡ members value_cmp values.old.items) }
{
    if more <= values.capacity() - values.len() {
        return Ok(());
    }
    settle_for_more(values)
}

// Drops repeats, and where more than half is left, takes memory for twice as much.
fn settle_for_more(values: &mut Vec<Value>) -> Result<(), AllocError>
    ensures { OnOk result (values.new.items ≡ members value_cmp values.old.items) }
{
    settle(values);
    if values.len() > values.capacity() / 2 {
        values.reserve(values.len())?;
    }
    Ok(())
}

/// Takes the values of another state.
#[tactic(auto, using(crate::proofs::TallyLemmas::gathered_laws))]
pub(crate) fn take_state(alloc: Global, work: &mut Work, other: AnyAgg) -> Result<(), AllocError>
    ensures { OnOk result (worked work.new ≡ join (worked work.old) other) }
{
    match work {
        Work::Count(n) => {
            *work = joined(alloc, AnyAgg::Count(*n), &other)?;
            Ok(())
        }
        Work::SumU(n) => {
            *work = joined(alloc, AnyAgg::SumU(*n), &other)?;
            Ok(())
        }
        Work::SumI(n) => {
            *work = joined(alloc, AnyAgg::SumI(*n), &other)?;
            Ok(())
        }
        Work::Gathered(values) => match set_of(other) {
            Ok(set) => gather_set(values, set),
            Err(lower) => {
                *work = work_on(alloc, lower)?;
                Ok(())
            }
        },
        Work::Joined(state) => any_merge(alloc, &mut **state, &other),
    }
}

// Two states as one, to go on with.
fn joined(alloc: Global, mut state: AnyAgg, other: &AnyAgg) -> Result<Work, AllocError>
    ensures { IfOk result (λ work. worked work ≡ join state other.now) }
{
    any_merge(alloc, &mut state, other)?;
    work_on(alloc, state)
}

// The set of a state, or the state of another function, which stands before all sets.
#[tactic(auto, unfolding(crate::specs::States::join))]
fn set_of(state: AnyAgg) -> Result<ValueSet, AnyAgg>
    ensures set { IfOk result (λ set. state ≡ AnyAgg.Uniq set) }
    ensures lower { IfErr result (λ lower. (values : List SomeValue) → lower ≡ join (AnyAgg.Uniq values) state) }
{
    match state {
        AnyAgg::Uniq(set) => Ok(set),
        lower => Err(lower),
    }
}

/// The value of the state that was worked on, over values of a kind.
pub(crate) fn value(alloc: Global, work: Work, arg: Scalar) -> Result<Value, AllocError>
    ensures { IfOk result (λ value. value ≡ value_of arg (worked work)) }
{
    match work {
        Work::Count(n) => Count::finish(alloc, &n, arg),
        Work::SumU(n) => UnsignedSum::finish(alloc, &n, arg),
        Work::SumI(n) => SignedSum::finish(alloc, &n, arg),
        other => any_finish(alloc, &end(other), arg),
    }
}

/// The state that was worked on. It takes no memory.
pub(crate) fn end(work: Work) -> AnyAgg
    ensures { result ≡ worked work }
{
    match work {
        Work::Count(n) => AnyAgg::Count(n),
        Work::SumU(n) => AnyAgg::SumU(n),
        Work::SumI(n) => AnyAgg::SumI(n),
        Work::Gathered(mut values) => {
            settle(&mut values);
            AnyAgg::Uniq(Items::from_vec(values))
        }
        Work::Joined(state) => Box::into_inner(state),
    }
}
