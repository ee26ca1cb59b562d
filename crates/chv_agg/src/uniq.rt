// Sets of values.
ghost use Rattle.std.specs.Prelude.{◌≡◌, ◌++◌, ◌∷◌, [], IfOk, OnOk, OnErr};
ghost use Rattle.std.specs.List.Sorted.{IsPermutation};
ghost use Rattle.chv_types.specs.Members.{members};
ghost use Rattle.chv_types.specs.Order.{value_cmp};
ghost use Rattle.chv_types.specs.Values.{seen_value};

use crate::reading::read_set;
use crate::spelling::put_set;
use crate::{Aggregate, ValueSet};
use chv_types::{Scalar, Seen, Value};
use sqlite_items::Items;
use std::alloc::{AllocError, Global};

/// Puts values in ascending order, each once. It takes no memory.
pub(crate) fn settle(values: &mut Vec<Value>)
    ensures { values.new.items ≡ members value_cmp values.old.items }
{
    values.sort_unstable();
    values.dedup();
}

/// Moves the values of a set to others, in some order. An `Err` leaves the set as it was.
pub(crate) fn move_values(values: &mut ValueSet, to: &mut Vec<Value>) -> Result<(), AllocError>
    ensures moved { OnOk result (IsPermutation (values.old ++ to.old.items) to.new.items) }
    ensures err { OnErr result (values.new ≡ values.old) }
{
    to.reserve(values.len())?;
    while let Some(value) = values.pop() {
        to.push(value)?;
    }
    Ok(())
}

// Puts values into a set. An `Err` leaves the set as it was.
fn put_values(values: &mut ValueSet, mut more: Vec<Value>) -> Result<(), AllocError>
    ensures put { OnOk result (values.new ≡ members value_cmp (values.old ++ more.items)) }
    ensures err { OnErr result (values.new ≡ values.old) }
{
    move_values(values, &mut more)?;
    settle(&mut more);
    *values = Items::from_vec(more);
    Ok(())
}

// Puts a value into a set. An `Err` leaves the set as it was.
fn put_value(alloc: Global, values: &mut ValueSet, input: Seen<'_>) -> Result<(), AllocError>
    ensures put { OnOk result (values.new ≡ members value_cmp (values.old ++ seen_value input.entry ∷ [])) }
    ensures err { OnErr result (values.new ≡ values.old) }
{
    let mut more = Vec::new(alloc);
    more.push(input.to_value(alloc)?)?;
    put_values(values, more)
}

// The values of a set, in new memory.
fn copied_values(alloc: Global, values: &ValueSet) -> Result<Vec<Value>, AllocError>
    ensures { IfOk result (λ copied. copied.items ≡ values.now) }
{
    let mut copied = Vec::new(alloc);
    for value in values.as_slice() {
        copied.push(value.seen().to_value(alloc)?)?;
    }
    Ok(copied)
}

/// The different values.
#[derive(Clone, Copy, Debug)]
pub struct Distinct;

impl Aggregate for Distinct {
    ghost use Rattle.chv_agg.specs.AggregateLaws.{has_few};
    ghost use Rattle.chv_agg.specs.StateBytes.{agg_number, set_bytes};
    ghost use Rattle.chv_agg.specs.SpellingLaws.{set_spelling};
    ghost use Rattle.std.proofs.Common.{ap};
    ghost use Rattle.std.specs.Prelude.{[]};
    ghost use Rattle.chv_agg.specs.Functions.{set_join, set_one, set_value};
    ghost use Rattle.chv_agg.specs.AggregateLaws.{IsSet};
    ghost use Rattle.chv_agg.specs.Lists.{aggregate_of};
    ghost use Rattle.chv_agg.specs.UniqLaws.{set_laws, set_state};
    ghost use Rattle.chv_types.specs.declared.aggregate.AggName.TheVariants as agg;

    type State = ValueSet;

    const TAG: u8 = 4;

    ghost TAG = { agg_number agg.UniqExact };

    ghost fits = { IsSet };

    ghost counted = { has_few };

    ghost spelling = { set_bytes };

    ghost none = { [] };

    ghost one = { set_one };

    ghost join = { set_join };

    ghost value_of = { set_value };

    ghost result_of = { aggregate_of agg.UniqExact };

    ghost laws = { set_laws };

    ghost spelled = { set_spelling };

    ghost valued = { λ arg values of. ap (set_value arg) (set_state values) };

    fn unit(alloc: Global) -> ValueSet {
        Items::new(alloc)
    }

    fn add(alloc: Global, state: &mut ValueSet, input: Seen<'_>) -> Result<(), AllocError> {
        put_value(alloc, state, input)
    }

    fn merge(alloc: Global, state: &mut ValueSet, other: &ValueSet) -> Result<(), AllocError> {
        put_values(state, copied_values(alloc, other)?)
    }

    fn finish(_alloc: Global, state: &ValueSet, _arg: Scalar) -> Result<Value, AllocError> {
        Ok(Value::Whole(state.len() as i128))
    }

    fn spell(state: &ValueSet, arg: Scalar, out: &mut Vec<u8>) -> Result<(), AllocError> {
        put_set(state, arg, out)
    }

    fn read(
        alloc: Global,
        bytes: &[u8],
        at: usize,
        arg: Scalar,
    ) -> Result<Option<(ValueSet, usize)>, AllocError> {
        read_set(alloc, bytes, at, arg)
    }
}
