// The rows of groups.
ghost use Rattle.std.specs.Prelude.{◌≡◌, ◌*◌, length, map, IfOk, OnOk};
ghost use Rattle.std.specs.List.{All};
ghost use Rattle.chv_group.specs.Keys.{AreApart, HasStates, placed_row};
ghost use Rattle.chv_group.specs.Tallies.{KeepsOthers};

use crate::AggCall;
use crate::placed_key::{PlacedKey, into_row};
use crate::tallies::with_values;
use chv_agg::Tally;
use chv_types::{Block, Row};
use std::alloc::{AllocError, Global};
use std::collections::VecDeque;

/// The rows of keys, each with what the calls give of its states behind it.
pub(crate) fn rows_of(
    alloc: Global,
    calls: &[AggCall],
    keys: Vec<PlacedKey>,
    mut tallies: Vec<Tally>,
) -> Result<Block, AllocError>
    requires apart { AreApart keys.items }
    requires states { All (HasStates calls.now tallies.items) keys.items }
    ensures { IfOk result (λ rows. rows ≡ map (placed_row calls.now tallies.items) keys.items) }
{
    let mut rows = Vec::with_capacity(alloc, keys.len())?;
    let mut left = VecDeque::from_vec(keys);
    while let Some(key) = left.pop_front() {
        rows.push(row_for(alloc, calls, key, &mut tallies)?)?;
    }
    Ok(Block::from_vec(rows))
}

// The row of a key. Its states are taken out.
fn row_for(
    alloc: Global,
    calls: &[AggCall],
    key: PlacedKey,
    tallies: &mut Vec<Tally>,
) -> Result<Row, AllocError>
    requires states { HasStates calls.now tallies.old.items key }
    ensures row { IfOk result (λ row. row ≡ placed_row calls.now tallies.old.items key) }
    ensures others { OnOk result (KeepsOthers (key.place * length calls.now) (length calls.now) tallies.old.items tallies.new.items) }
    ensures size { OnOk result (length tallies.new.items ≡ length tallies.old.items) }
{
    let PlacedKey { key, place } = key;
    let row = into_row(alloc, key, calls.len())?;
    with_values(alloc, tallies, place * calls.len(), calls, row)
}
