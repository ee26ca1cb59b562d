// States that are worked on.
ghost use Rattle.std.specs.Prelude.{◌≡◌, IfOk, OnOk};
ghost use Rattle.chv_agg.specs.StateBytes.{state_bytes, state_in};
ghost use Rattle.chv_agg.specs.States.{FitsState, IsOver, join, one_like, unit_of, value_of};
ghost use Rattle.chv_agg.specs.Tallies.{IsCounted};
ghost use Rattle.chv_types.specs.Values.{seen_value};

use crate::gathering::{Work, begin, end, take_state, take_value, value};
use crate::states::any_whole;
use crate::{AnyAgg, any_spell};
use chv_types::{AggName, Scalar, Seen, Value};
use std::alloc::{AllocError, Global};
use std::marker::Model;

/// A state that takes values one after the other, and keeps different values as they come until they have doubled.
#[derive(Debug, Drop)]
pub struct Tally {
    work: Work,
}

impl Model for Tally {
    ghost use Rattle.chv_agg.specs.Tallies.{worked};
    ghost use Rattle.chv_agg.specs.declared.any_agg.AnyAgg.{AnyAgg as SomeState};

    ghost Value = { SomeState };

    ghost view = { λ t. worked t.work };
}

impl Tally {
    /// The state of no values.
    pub fn new(alloc: Global, agg: AggName, arg: Scalar) -> Result<Tally, AllocError>
        ensures { IfOk result (λ tally. tally ≡ unit_of agg arg) }
    {
        Ok(Tally {
            work: begin(alloc, agg, arg)?,
        })
    }

    /// Takes one value more. After an `Err` it is not used again.
    pub fn add(&mut self, alloc: Global, input: Seen<'_>) -> Result<(), AllocError>
        ensures { OnOk result (self.new ≡ join self.old (one_like self.old (seen_value input.entry))) }
    {
        take_value(alloc, &mut self.work, input)
    }

    /// Takes the values of a state of the function over values of the kind, by its bytes; of bytes that spell none it takes no
    /// value. After an `Err` it is not used again.
    pub fn merge(
        &mut self,
        alloc: Global,
        bytes: &[u8],
        agg: AggName,
        arg: Scalar,
    ) -> Result<(), AllocError>
        ensures merged { OnOk result (self.new ≡ join self.old (state_in agg arg bytes.now)) }
        ensures fits { OnOk result (FitsState agg arg (state_in agg arg bytes.now)) }
    {
        let other = any_whole(alloc, bytes, agg, arg)?;
        take_state(alloc, &mut self.work, other)
    }

    /// The value of the state over values of a kind.
    pub fn into_value(self, alloc: Global, arg: Scalar) -> Result<Value, AllocError>
        ensures { IfOk result (λ value. value ≡ value_of arg self) }
    {
        let Tally { work } = self;
        value(alloc, work, arg)
    }

    /// The state over values of a kind, as a value.
    pub fn into_state(self, alloc: Global, arg: Scalar) -> Result<Value, AllocError>
        requires fits { (agg : AggName) × IsOver agg arg self }
        ensures { IfOk result (λ value. value ≡ Value.State (state_bytes arg self)) }
    {
        let Tally { work } = self;
        spell_state(alloc, &end(work), arg)
    }
}

// A state over values of a kind, as a value.
fn spell_state(alloc: Global, state: &AnyAgg, arg: Scalar) -> Result<Value, AllocError>
    requires fits { (agg : AggName) × IsOver agg arg state.now }
    ensures { IfOk result (λ value. value ≡ Value.State (state_bytes arg state.now)) }
{
    count_values(state);
    Ok(Value::State(any_spell(alloc, state, arg)?))
}

// How many values a set has. It is in memory, so these are fewer than 2^64.
fn count_values(state: &AnyAgg) -> usize
    ensures { IsCounted state.now }
{
    match state {
        AnyAgg::Uniq(values) => values.len(),
        _ => 0,
    }
}
