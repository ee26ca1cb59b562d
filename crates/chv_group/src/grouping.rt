// Groups.
ghost use Rattle.std.specs.Prelude.{◌≡◌, ◌*◌, ◌++◌, ◌∷◌, ◌&&◌, [], List, ℕ, length, map, IfOk, OnOk};
ghost use Rattle.std.specs.List.{All};
ghost use Rattle.chv_group.specs.Groups.{TakesArguments, grouped, is_empty};
ghost use Rattle.chv_group.specs.Keys.{ArePlaced, PushesKey, placed_groups};
ghost use Rattle.chv_group.specs.Takings.{AreOf, HasTaken, HaveStates, IsSound};
ghost use Rattle.chv_group.specs.Tallies.{AreOver, fed, unit_value, units};
ghost use Rattle.chv_group.specs.declared.call.Keyed.{Keyed as Input};
ghost use Rattle.chv_types.specs.Values.{seen_value};

use crate::key_names::KeyNames;
use crate::placed_key::{PlacedKey, key_of, sorted};
use crate::rows::rows_of;
use crate::tallies::{push_first, take_all, values_of_none};
use crate::{AggCall, AggCalls, Keyed, KeyedRows};
use chv_agg::Tally;
use chv_types::{Block, Row, Seen};
use std::alloc::{AllocError, Global};
use std::marker::Model;

/// Inputs by their keys, and the states of calls over each group.
#[derive(Drop)]
pub struct Grouping {
    calls: AggCalls,
    // The bytes of the keys, in the order of the groups.
    names: KeyNames,
    // The keys, in the order in which they came.
    keys: Vec<PlacedKey>,
    // The states of the calls over each group, one group's behind the other's.
    tallies: Vec<Tally>,
    // Where the bytes of a key are put to find it.
    scratch: Vec<u8>,
}

impl Model for Grouping {
    ghost use Rattle.std.specs.Prelude.{length};
    ghost use Rattle.chv_group.specs.Keys.{placed_groups};
    ghost use Rattle.chv_group.specs.Takings.{Gathered, IsSound};

    ghost Value = { Gathered };

    ghost view = { λ g. record { calls = g.calls; names = g.names; groups = placed_groups (length g.calls) g.keys.items g.tallies.items } };

    ghost invariant = { λ g. IsSound g.calls g.names g.keys.items g.tallies.items };
}

/// The rows of groups: one for each key, in the order of keys, with the key in front of what the calls give; and where there is
/// always one, that of no inputs.
pub fn group(
    alloc: Global,
    inputs: &KeyedRows,
    calls: &AggCalls,
    always: bool,
) -> Result<Block, AllocError>
    requires takes { All (λ input. TakesArguments calls.now input.args) inputs.now }
    ensures { IfOk result (λ rows. rows ≡ grouped calls.now inputs.now always) }
{
    let calls = AggCalls::from_slice(alloc, calls.as_slice())?;
    let mut grouping = Grouping::new(alloc, calls)?;
    for input in inputs.as_slice() {
        feed_input(alloc, &mut grouping, input)?;
    }
    grouping.finish(alloc, always)
}

// Takes an input.
fn feed_input(alloc: Global, grouping: &mut Grouping, input: &Keyed) -> Result<(), AllocError>
    requires takes { TakesArguments grouping.old.calls input.now.args }
    ensures calls { grouping.new.calls ≡ grouping.old.calls }
    ensures taken { OnOk result ((taken : List Input) → HasTaken grouping.old taken → HasTaken grouping.new (taken ++ input.now ∷ [])) }
{
    let key = seen_row(alloc, &input.key)?;
    let args = seen_row(alloc, &input.args)?;
    grouping.feed(alloc, key.as_slice(), args.as_slice())
}

// The values of a row, borrowed.
fn seen_row<'a>(alloc: Global, row: &'a Row) -> Result<Vec<Seen<'a>>, AllocError>
    ensures { IfOk result (λ seen. map seen_value seen.items ≡ row.now) }
{
    let mut seen = Vec::with_capacity(alloc, row.len())?;
    for value in row.as_slice() {
        seen.push(value.seen())?;
    }
    Ok(seen)
}

impl Grouping {
    /// No inputs yet.
    pub fn new(alloc: Global, calls: AggCalls) -> Result<Grouping, AllocError>
        ensures calls { IfOk result (λ grouping. grouping.calls ≡ calls) }
        ensures taken { IfOk result (λ grouping. HasTaken grouping []) }
    {
        Ok(Grouping {
            calls,
            names: KeyNames::new(alloc),
            keys: Vec::new(alloc),
            tallies: Vec::new(alloc),
            scratch: Vec::new(alloc),
        })
    }

    /// Takes a key with its arguments. A key that is known takes no memory. After an `Err` it is not used again.
    pub fn feed(
        &mut self,
        alloc: Global,
        key: &[Seen<'_>],
        args: &[Seen<'_>],
    ) -> Result<(), AllocError>
        requires takes { TakesArguments self.old.calls (map seen_value args.now) }
        ensures calls { self.new.calls ≡ self.old.calls }
        ensures taken { OnOk result ((taken : List Input) → HasTaken self.old taken
            → HasTaken self.new (taken ++ record { key = map seen_value key.now; args = map seen_value args.now } ∷ [])) }
    {
        self.scratch.clear();
        let calls = self.calls.as_slice();
        let fed = feed_groups(
            alloc,
            calls,
            &mut self.names,
            &mut self.keys,
            &mut self.tallies,
            &mut self.scratch,
            key,
            args,
        );
        if fed.is_err() {
            self.names.clear();
            self.keys.clear();
            self.tallies.clear();
        }
        fed
    }

    /// The rows of the groups.
    pub fn finish(self, alloc: Global, always: bool) -> Result<Block, AllocError>
        ensures { IfOk result (λ rows. (taken : List Input) → HasTaken self taken → rows ≡ grouped self.calls taken always) }
    {
        let Grouping {
            calls,
            keys,
            tallies,
            ..
        } = self;
        finished(alloc, calls.as_slice(), keys, tallies, always)
    }
}

// Takes a key with its arguments, for which there is room for its bytes.
fn feed_groups(
    alloc: Global,
    calls: &[AggCall],
    names: &mut KeyNames,
    keys: &mut Vec<PlacedKey>,
    tallies: &mut Vec<Tally>,
    name: &mut Vec<u8>,
    key: &[Seen<'_>],
    args: &[Seen<'_>],
) -> Result<(), AllocError>
    requires takes { TakesArguments calls.now (map seen_value args.now) }
    requires sound { IsSound calls.now names.old keys.old.items tallies.old.items }
    requires empty { name.old.items ≡ [] }
    ensures sound { OnOk result (IsSound calls.now names.new keys.new.items tallies.new.items) }
    ensures taken { OnOk result ((taken : List Input) → AreOf calls.now names.old (placed_groups (length calls.now) keys.old.items tallies.old.items) taken
        → AreOf calls.now names.new (placed_groups (length calls.now) keys.new.items tallies.new.items) (taken ++ record { key = map seen_value key.now; args = map seen_value args.now } ∷ [])) }
{
    match names.place(alloc, key, name)? {
        Some(place) => take_all(alloc, tallies, place * calls.len(), calls, args),
        None => {
            push_group(alloc, calls, keys, tallies, key, args)?;
            names.add(alloc, key, name)
        }
    }
}

// Puts a group of one input behind the others.
fn push_group(
    alloc: Global,
    calls: &[AggCall],
    keys: &mut Vec<PlacedKey>,
    tallies: &mut Vec<Tally>,
    key: &[Seen<'_>],
    args: &[Seen<'_>],
) -> Result<(), AllocError>
    requires takes { TakesArguments calls.now (map seen_value args.now) }
    ensures key { OnOk result (PushesKey keys.old.items keys.new.items (map seen_value key.now)) }
    ensures taken { OnOk result (tallies.new.items ≡ tallies.old.items ++ fed calls.now (units calls.now) (map seen_value args.now)) }
    ensures over { OnOk result (AreOver calls.now (fed calls.now (units calls.now) (map seen_value args.now))) }
{
    push_key(alloc, keys, key, calls.len())?;
    push_first(alloc, tallies, calls, args)
}

// Puts a key behind the others, which has room for so many more values.
fn push_key(
    alloc: Global,
    keys: &mut Vec<PlacedKey>,
    key: &[Seen<'_>],
    more: usize,
) -> Result<(), AllocError>
    ensures { OnOk result (PushesKey keys.old.items keys.new.items (map seen_value key.now)) }
{
    let place = keys.len();
    let key = key_of(alloc, key, more)?;
    keys.push(PlacedKey { key, place })?;
    Ok(())
}

// The rows of groups in the order of their keys; of none, where there is always a row, that of no inputs.
fn finished(
    alloc: Global,
    calls: &[AggCall],
    keys: Vec<PlacedKey>,
    tallies: Vec<Tally>,
    always: bool,
) -> Result<Block, AllocError>
    requires placed { ArePlaced keys.items }
    requires whole { length tallies.items ≡ length keys.items * length calls.now }
    requires over { HaveStates calls.now (placed_groups (length calls.now) keys.items tallies.items) }
    ensures { IfOk result (λ rows. (names : List (List ℕ)) (taken : List Input) → AreOf calls.now names (placed_groups (length calls.now) keys.items tallies.items) taken
        → rows ≡ grouped calls.now taken always) }
{
    if is_lone(always, keys.as_slice()) {
        return row_of_none(alloc, calls);
    }
    rows_of(alloc, calls, sorted(keys), tallies)
}

// The row of no inputs is the one row.
fn is_lone(always: bool, keys: &[PlacedKey]) -> bool
    ensures { result ≡ (always && is_empty keys.now) }
{
    always && keys.is_empty()
}

// The row of no inputs.
fn row_of_none(alloc: Global, calls: &[AggCall]) -> Result<Block, AllocError>
    ensures { IfOk result (λ rows. rows ≡ map unit_value calls.now ∷ []) }
{
    let row = values_of_none(alloc, calls)?;
    let mut rows = Block::new(alloc);
    rows.push(row)?;
    Ok(rows)
}
