// The states of calls over groups, one group's behind the other's.
ghost use Rattle.std.specs.Prelude.{◌≡◌, ◌++◌, ◌+◌, ◌≤◌, length, map, IfOk, OnOk};
ghost use Rattle.chv_agg.specs.States.{IsOver, join, unit_of};
ghost use Rattle.chv_group.specs.Groups.{TakesArgument, TakesArguments, input_state, state_value};
ghost use Rattle.chv_group.specs.Tallies.{AreOver, KeepsOthers, fed, part, unit_value, units, values_of};
ghost use Rattle.chv_types.specs.Order.{bytes};
ghost use Rattle.chv_types.specs.Values.{seen_value};

use crate::AggCall;
use chv_agg::Tally;
use chv_types::{AggForm, AggName, Row, Scalar, Seen, Value};
use std::alloc::{AllocError, Global};
use std::mem;

/// Puts the states of calls over one argument each behind others.
pub(crate) fn push_first(
    alloc: Global,
    tallies: &mut Vec<Tally>,
    calls: &[AggCall],
    args: &[Seen<'_>],
) -> Result<(), AllocError>
    requires takes { TakesArguments calls.now (map seen_value args.now) }
    ensures taken { OnOk result (tallies.new.items ≡ tallies.old.items ++ fed calls.now (units calls.now) (map seen_value args.now)) }
    ensures over { OnOk result (AreOver calls.now (fed calls.now (units calls.now) (map seen_value args.now))) }
{
    for place in 0..calls.len() {
        tallies.push(first_of(alloc, calls[place], args[place])?)?;
    }
    Ok(())
}

// The state of a call over one argument.
fn first_of(alloc: Global, call: AggCall, arg: Seen<'_>) -> Result<Tally, AllocError>
    requires takes { TakesArgument call (seen_value arg) }
    ensures taken { IfOk result (λ tally. tally ≡ join (unit_of call.agg call.arg) (input_state call (seen_value arg.entry))) }
    ensures over { IfOk result (λ tally. IsOver call.agg call.arg tally) }
{
    let mut tally = Tally::new(alloc, call.agg, call.arg)?;
    take_one(alloc, &mut tally, call, arg)?;
    Ok(tally)
}

/// Takes one argument more for each call, whose states stand from a place on. After an `Err` they are not used again.
pub(crate) fn take_all(
    alloc: Global,
    tallies: &mut Vec<Tally>,
    first: usize,
    calls: &[AggCall],
    args: &[Seen<'_>],
) -> Result<(), AllocError>
    requires takes { TakesArguments calls.now (map seen_value args.now) }
    requires within { first + length calls.now ≤ length tallies.old.items }
    requires over { AreOver calls.now (part first (length calls.now) tallies.old.items) }
    ensures taken { OnOk result (part first (length calls.now) tallies.new.items ≡ fed calls.now (part first (length calls.now) tallies.old.items) (map seen_value args.now)) }
    ensures over { OnOk result (AreOver calls.now (part first (length calls.now) tallies.new.items)) }
    ensures others { OnOk result (KeepsOthers first (length calls.now) tallies.old.items tallies.new.items) }
    ensures size { OnOk result (length tallies.new.items ≡ length tallies.old.items) }
{
    for place in 0..calls.len() {
        take_one(
            alloc,
            &mut tallies[first + place],
            calls[place],
            args[place],
        )?;
    }
    Ok(())
}

// Takes one argument more for a call.
fn take_one(
    alloc: Global,
    tally: &mut Tally,
    call: AggCall,
    arg: Seen<'_>,
) -> Result<(), AllocError>
    requires takes { TakesArgument call (seen_value arg) }
    requires over { IsOver call.agg call.arg tally.old }
    ensures taken { OnOk result (tally.new ≡ join tally.old (input_state call (seen_value arg.entry))) }
    ensures over { OnOk result (IsOver call.agg call.arg tally.new) }
{
    match call.form {
        AggForm::Plain | AggForm::State => tally.add(alloc, arg),
        AggForm::Merge | AggForm::MergeState => {
            tally.merge(alloc, bytes_of(arg), call.agg, call.arg)
        }
    }
}

// The bytes of a value, where it has any.
fn bytes_of<'a>(value: Seen<'a>) -> &'a [u8]
    ensures { result.now ≡ bytes (seen_value value.entry) }
{
    match value {
        Seen::Whole(_) | Seen::Truth(_) => &[],
        Seen::Text(bytes) | Seen::State(bytes) => bytes,
    }
}

/// What calls give of their states, which stand from a place on, behind other values. These states are taken out.
pub(crate) fn with_values(
    alloc: Global,
    tallies: &mut Vec<Tally>,
    first: usize,
    calls: &[AggCall],
    mut row: Row,
) -> Result<Row, AllocError>
    requires within { first + length calls.now ≤ length tallies.old.items }
    requires over { AreOver calls.now (part first (length calls.now) tallies.old.items) }
    ensures values { IfOk result (λ made. made ≡ row ++ values_of calls.now (part first (length calls.now) tallies.old.items)) }
    ensures others { OnOk result (KeepsOthers first (length calls.now) tallies.old.items tallies.new.items) }
    ensures size { OnOk result (length tallies.new.items ≡ length tallies.old.items) }
{
    for place in 0..calls.len() {
        let tally = take_out(alloc, &mut tallies[first + place])?;
        row.push(result_of(alloc, tally, calls[place])?)?;
    }
    Ok(row)
}

// Takes a state out, and leaves one that takes no memory.
fn take_out(alloc: Global, tally: &mut Tally) -> Result<Tally, AllocError>
    ensures { IfOk result (λ taken. taken ≡ tally.old) }
{
    let other = Tally::new(alloc, AggName::Count, Scalar::UInt64)?;
    Ok(mem::replace(tally, other))
}

// What a call gives of its state.
fn result_of(alloc: Global, tally: Tally, call: AggCall) -> Result<Value, AllocError>
    requires over { IsOver call.agg call.arg tally }
    ensures { IfOk result (λ value. value ≡ state_value call tally) }
{
    match call.form {
        AggForm::Plain | AggForm::Merge => tally.into_value(alloc, call.arg),
        AggForm::State | AggForm::MergeState => tally.into_state(alloc, call.arg),
    }
}

/// What calls give of no inputs.
pub(crate) fn values_of_none(alloc: Global, calls: &[AggCall]) -> Result<Row, AllocError>
    ensures { IfOk result (λ row. row ≡ map unit_value calls.now) }
{
    let mut row = Row::new(alloc);
    for call in calls {
        row.push(value_of_none(alloc, *call)?)?;
    }
    Ok(row)
}

// What a call gives of no inputs.
fn value_of_none(alloc: Global, call: AggCall) -> Result<Value, AllocError>
    ensures { IfOk result (λ value. value ≡ unit_value call) }
{
    result_of(alloc, Tally::new(alloc, call.agg, call.arg)?, call)
}
