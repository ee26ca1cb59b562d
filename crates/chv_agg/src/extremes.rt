// The least and the greatest of values.
ghost use Rattle.std.specs.Prelude.{◌≡◌, None, Some, if◌then◌else◌, IfOk, OnOk, OnErr};
ghost use Rattle.std.specs.Option.{unwrap_or};
ghost use Rattle.chv_agg.specs.States.{either_by, higher, lower};
ghost use Rattle.chv_types.specs.Values.{plain_default, seen_value};

use crate::Aggregate;
use crate::reading::read_found;
use crate::spelling::put_found;
use chv_types::{Kind, Scalar, Seen, Value, compare_seen, default_value};
use std::alloc::{AllocError, Global};

// Keeps the lower of what was found and a value. Only a value that is kept is copied.
fn keep_lower(alloc: Global, found: &mut Option<Value>, input: Seen<'_>) -> Result<(), AllocError>
    ensures kept { OnOk result (found.new ≡ either_by lower found.old (Some (seen_value input.entry))) }
    ensures err { OnErr result (found.new ≡ found.old) }
{
    if is_lower(found, input) {
        *found = Some(input.to_value(alloc)?);
    }
    Ok(())
}

// Keeps the higher of what was found and a value. Only a value that is kept is copied.
fn keep_higher(alloc: Global, found: &mut Option<Value>, input: Seen<'_>) -> Result<(), AllocError>
    ensures kept { OnOk result (found.new ≡ either_by higher found.old (Some (seen_value input.entry))) }
    ensures err { OnErr result (found.new ≡ found.old) }
{
    if is_higher(found, input) {
        *found = Some(input.to_value(alloc)?);
    }
    Ok(())
}

// Whether a value is lower than what was found.
fn is_lower(found: &Option<Value>, input: Seen<'_>) -> bool
    ensures { either_by lower found.now (Some (seen_value input.entry)) ≡ (if result then Some (seen_value input.entry) else found.now) }
{
    match found {
        Some(value) => compare_seen(value.seen(), input).is_gt(),
        None => true,
    }
}

// Whether a value is higher than what was found.
fn is_higher(found: &Option<Value>, input: Seen<'_>) -> bool
    ensures { either_by higher found.now (Some (seen_value input.entry)) ≡ (if result then Some (seen_value input.entry) else found.now) }
{
    match found {
        Some(value) => compare_seen(value.seen(), input).is_lt(),
        None => true,
    }
}

// What was found, or the default of the kind.
fn found_or_default(alloc: Global, found: &Option<Value>, arg: Scalar) -> Result<Value, AllocError>
    ensures { IfOk result (λ value. value ≡ unwrap_or found.now (plain_default arg)) }
{
    match found {
        Some(value) => value.seen().to_value(alloc),
        None => default_value(alloc, Kind::Plain(arg)),
    }
}

// Keeps the lower of what was found twice.
#[tactic(auto, using(crate::proofs::StateLemmas::found_laws))]
fn lower_of_both(
    alloc: Global,
    found: &mut Option<Value>,
    other: &Option<Value>,
) -> Result<(), AllocError>
    ensures kept { OnOk result (found.new ≡ either_by lower found.old other.now) }
    ensures err { OnErr result (found.new ≡ found.old) }
{
    match other {
        Some(value) => keep_lower(alloc, found, value.seen()),
        None => Ok(()),
    }
}

// Keeps the higher of what was found twice.
#[tactic(auto, using(crate::proofs::StateLemmas::found_laws))]
fn higher_of_both(
    alloc: Global,
    found: &mut Option<Value>,
    other: &Option<Value>,
) -> Result<(), AllocError>
    ensures kept { OnOk result (found.new ≡ either_by higher found.old other.now) }
    ensures err { OnErr result (found.new ≡ found.old) }
{
    match other {
        Some(value) => keep_higher(alloc, found, value.seen()),
        None => Ok(()),
    }
}

/// What was found, in new memory.
pub(crate) fn copied_found(
    alloc: Global,
    found: &Option<Value>,
) -> Result<Option<Value>, AllocError>
    ensures { IfOk result (λ copied. copied ≡ found.now) }
{
    match found {
        Some(value) => Ok(Some(value.seen().to_value(alloc)?)),
        None => Ok(None),
    }
}

/// The least value.
#[derive(Clone, Copy, Debug)]
pub struct Least;

impl Aggregate for Least {
    ghost use Rattle.chv_agg.specs.AggregateLaws.{keeps_none};
    ghost use Rattle.chv_agg.specs.StateBytes.{agg_number, found_bytes};
    ghost use Rattle.chv_agg.specs.SpellingLaws.{found_spelling};
    ghost use Rattle.std.proofs.Common.{ap};
    ghost use Rattle.std.specs.declared.option.Option.TheVariants.{None};
    ghost use Rattle.chv_agg.specs.ExtremeLaws.{least_laws, least_state};
    ghost use Rattle.chv_agg.specs.Functions.{found_one, found_value};
    ghost use Rattle.chv_agg.specs.Lists.{aggregate_of};
    ghost use Rattle.chv_agg.specs.States.{either_by, FitsFound, lower};
    ghost use Rattle.chv_types.specs.declared.aggregate.AggName.TheVariants as agg;

    type State = Option<Value>;

    const TAG: u8 = 2;

    ghost TAG = { agg_number agg.Min };

    ghost fits = { FitsFound };

    ghost counted = { keeps_none };

    ghost spelling = { found_bytes };

    ghost none = { None };

    ghost one = { found_one };

    ghost join = { either_by lower };

    ghost value_of = { found_value };

    ghost result_of = { aggregate_of agg.Min };

    ghost laws = { least_laws };

    ghost spelled = { found_spelling };

    ghost valued = { λ arg values of. ap (found_value arg) (least_state values) };

    fn unit(_alloc: Global) -> Option<Value> {
        None
    }

    fn add(alloc: Global, state: &mut Option<Value>, input: Seen<'_>) -> Result<(), AllocError> {
        keep_lower(alloc, state, input)
    }

    fn merge(
        alloc: Global,
        state: &mut Option<Value>,
        other: &Option<Value>,
    ) -> Result<(), AllocError> {
        lower_of_both(alloc, state, other)
    }

    fn finish(alloc: Global, state: &Option<Value>, arg: Scalar) -> Result<Value, AllocError> {
        found_or_default(alloc, state, arg)
    }

    fn spell(state: &Option<Value>, arg: Scalar, out: &mut Vec<u8>) -> Result<(), AllocError> {
        put_found(state, arg, out)
    }

    fn read(
        alloc: Global,
        bytes: &[u8],
        at: usize,
        arg: Scalar,
    ) -> Result<Option<(Option<Value>, usize)>, AllocError> {
        read_found(alloc, bytes, at, arg)
    }
}

/// The greatest value.
#[derive(Clone, Copy, Debug)]
pub struct Greatest;

impl Aggregate for Greatest {
    ghost use Rattle.chv_agg.specs.AggregateLaws.{keeps_none};
    ghost use Rattle.chv_agg.specs.StateBytes.{agg_number, found_bytes};
    ghost use Rattle.chv_agg.specs.SpellingLaws.{found_spelling};
    ghost use Rattle.std.proofs.Common.{ap};
    ghost use Rattle.std.specs.declared.option.Option.TheVariants.{None};
    ghost use Rattle.chv_agg.specs.ExtremeLaws.{greatest_laws, greatest_state};
    ghost use Rattle.chv_agg.specs.Functions.{found_one, found_value};
    ghost use Rattle.chv_agg.specs.Lists.{aggregate_of};
    ghost use Rattle.chv_agg.specs.States.{either_by, FitsFound, higher};
    ghost use Rattle.chv_types.specs.declared.aggregate.AggName.TheVariants as agg;

    type State = Option<Value>;

    const TAG: u8 = 3;

    ghost TAG = { agg_number agg.Max };

    ghost fits = { FitsFound };

    ghost counted = { keeps_none };

    ghost spelling = { found_bytes };

    ghost none = { None };

    ghost one = { found_one };

    ghost join = { either_by higher };

    ghost value_of = { found_value };

    ghost result_of = { aggregate_of agg.Max };

    ghost laws = { greatest_laws };

    ghost spelled = { found_spelling };

    ghost valued = { λ arg values of. ap (found_value arg) (greatest_state values) };

    fn unit(_alloc: Global) -> Option<Value> {
        None
    }

    fn add(alloc: Global, state: &mut Option<Value>, input: Seen<'_>) -> Result<(), AllocError> {
        keep_higher(alloc, state, input)
    }

    fn merge(
        alloc: Global,
        state: &mut Option<Value>,
        other: &Option<Value>,
    ) -> Result<(), AllocError> {
        higher_of_both(alloc, state, other)
    }

    fn finish(alloc: Global, state: &Option<Value>, arg: Scalar) -> Result<Value, AllocError> {
        found_or_default(alloc, state, arg)
    }

    fn spell(state: &Option<Value>, arg: Scalar, out: &mut Vec<u8>) -> Result<(), AllocError> {
        put_found(state, arg, out)
    }

    fn read(
        alloc: Global,
        bytes: &[u8],
        at: usize,
        arg: Scalar,
    ) -> Result<Option<(Option<Value>, usize)>, AllocError> {
        read_found(alloc, bytes, at, arg)
    }
}
