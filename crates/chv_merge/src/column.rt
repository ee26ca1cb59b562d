// The rows of a key as one, column by column.
ghost use Rattle.std.specs.Prelude.{◌≡◌, ◌<◌, ◌^◌, ◌∷◌, [], ℕ, Some, nat_eq, slice_get, slice_set, length, IfOk, OnOk};
ghost use Rattle.std.specs.List.{fold, list_any};
ghost use Rattle.std.specs.Option.{option_copied};
ghost use Rattle.chv_agg.specs.OfKinds.{AllAreOf, AreOf};
ghost use Rattle.chv_agg.specs.StateBytes.{state_bytes};
ghost use Rattle.chv_agg.specs.States.{FitsState, IsOver, merged, lower};
ghost use Rattle.chv_merge.specs.Merging.{column, lower_found, merged_states, states_in};
ghost use Rattle.chv_merge.specs.NormalForms.{merge_all, merge_values, merged_at};
ghost use Rattle.chv_types.specs.Order.{bytes};
ghost use Rattle.chv_types.specs.Values.{seen_value};
ghost use Rattle.chv_types.specs.declared.value.Value.{Value as SomeValue};

use chv_agg::Tally;
use chv_types::{AggName, Kind, Kinds, Places, Row, Scalar, Seen, Value, compare};
use std::alloc::{AllocError, Global};
use std::cmp::Ordering;

/// The rows of a key as one: the first, and the others.
pub(crate) fn merge_run(
    alloc: Global,
    kinds: &Kinds,
    key: &Places,
    first: Row,
    others: &[Row],
) -> Result<Row, AllocError>
    requires first { AreOf kinds.now first }
    requires others { AllAreOf kinds.now others.now }
    ensures row { IfOk result (λ row. row ≡ merge_all kinds.now key.now (first ∷ others.now)) }
    ensures kinds { IfOk result (λ row. AreOf kinds.now row) }
{
    if others.is_empty() {
        return Ok(first);
    }
    merge_columns(alloc, kinds, key, first, others)
}

// A row with the others of its key, column by column.
fn merge_columns(
    alloc: Global,
    kinds: &Kinds,
    key: &Places,
    mut row: Row,
    others: &[Row],
) -> Result<Row, AllocError>
    requires first { AreOf kinds.now row }
    requires others { AllAreOf kinds.now others.now }
    ensures row { IfOk result (λ made. made ≡ merge_all kinds.now key.now (row ∷ others.now)) }
    ensures kinds { IfOk result (λ made. AreOf kinds.now made) }
{
    for place in 0..kinds.len() {
        merge_column(alloc, kinds, key, &mut row, others, place)?;
    }
    Ok(row)
}

// Merges the values that others have at a place into a row.
fn merge_column(
    alloc: Global,
    kinds: &Kinds,
    key: &Places,
    row: &mut Row,
    others: &[Row],
    place: usize,
) -> Result<(), AllocError>
    requires place { place < length kinds.now }
    requires row { AreOf kinds.now row.old }
    requires others { AllAreOf kinds.now others.now }
    ensures merged { (x : SomeValue) → slice_get row.old place ≡ Some x
        → OnOk result (row.new ≡ slice_set row.old place (fold (merge_values (merged_at kinds.now key.now place)) x (column place others.now))) }
    ensures kinds { OnOk result (AreOf kinds.now row.new) }
{
    match merged_in(kinds, key, place) {
        Some((agg, arg)) => {
            let value = merge_states(alloc, row, others, place, agg, arg)?;
            row.set(place, value);
            Ok(())
        }
        None => put_lowest(alloc, row, others, place),
    }
}

// The function whose states are merged at a place, and the kind that they are over.
fn merged_in(kinds: &Kinds, key: &Places, place: usize) -> Option<(AggName, Scalar)>
    ensures { result ≡ merged_at kinds.now key.now place }
{
    if is_in(key.as_slice(), place) {
        return None;
    }
    match kinds.get(place) {
        Some(Kind::State(agg, arg)) => Some((*agg, *arg)),
        _ => None,
    }
}

// Whether a place is one of a key.
fn is_in(key: &[u32], place: usize) -> bool
    ensures { result ≡ list_any (nat_eq place) key.now }
{
    for other in key {
        if place == *other as usize {
            return true;
        }
    }
    false
}

// The merge of the states that rows have at a place, as a value.
fn merge_states(
    alloc: Global,
    row: &Row,
    others: &[Row],
    place: usize,
    agg: AggName,
    arg: Scalar,
) -> Result<Value, AllocError>
    ensures value { IfOk result (λ value. value ≡ Value.State (state_bytes arg (merged_states agg arg place (row.now ∷ others.now)))) }
    ensures fits { OnOk result (FitsState agg arg (merged_states agg arg place (row.now ∷ others.now))) }
{
    let mut tally = Tally::new(alloc, agg, arg)?;
    take_state(alloc, &mut tally, row, place, agg, arg)?;
    for other in others {
        take_state(alloc, &mut tally, other, place, agg, arg)?;
    }
    let value = tally.into_state(alloc, arg)?;
    count_bytes(&value);
    Ok(value)
}

// How many bytes a value has. They are in memory, so these are fewer than 2^64, and so are the values of a set that they spell.
fn count_bytes(value: &Value) -> usize
    ensures { length (bytes value.now) < 2 ^ 64 }
{
    bytes_of(value.seen()).len()
}

// Takes the state that a row has at a place.
fn take_state(
    alloc: Global,
    tally: &mut Tally,
    row: &Row,
    place: usize,
    agg: AggName,
    arg: Scalar,
) -> Result<(), AllocError>
    requires over { IsOver agg arg tally.old }
    ensures taken { OnOk result (tally.new ≡ merged tally.old (states_in agg arg (column place (row.now ∷ [])))) }
    ensures over { OnOk result (IsOver agg arg tally.new) }
{
    match row.get(place) {
        Some(value) => tally.merge(alloc, bytes_of(value.seen()), agg, arg),
        None => Ok(()),
    }
}

// The bytes of a value, where it has any.
fn bytes_of<'a>(value: Seen<'a>) -> &'a [u8]
    ensures { result.now ≡ bytes (seen_value value.entry) }
{
    match value {
        Seen::Whole(_) | Seen::Truth(_) => &[],
        Seen::Text(bytes) | Seen::State(bytes) => bytes,
    }
}

// Puts the lowest of the values that rows have at a place into a row.
fn put_lowest(alloc: Global, row: &mut Row, others: &[Row], place: usize) -> Result<(), AllocError>
    ensures { (x : SomeValue) → slice_get row.old place ≡ Some x
        → OnOk result (row.new ≡ slice_set row.old place (fold lower x (column place others.now))) }
{
    for other in others {
        put_lower(alloc, row, other, place)?;
    }
    Ok(())
}

// Puts the value that another row has at a place into a row, where it is the lower.
fn put_lower(alloc: Global, row: &mut Row, other: &Row, place: usize) -> Result<(), AllocError>
    ensures { (x : SomeValue) → slice_get row.old place ≡ Some x
        → OnOk result (row.new ≡ slice_set row.old place (fold lower x (column place (other.now ∷ [])))) }
{
    match lower_at(row, other, place) {
        Some(value) => {
            let copied = value.seen().to_value(alloc)?;
            row.set(place, copied);
            Ok(())
        }
        None => Ok(()),
    }
}

// The value that another row has at a place, where it is lower than that of a row.
fn lower_at<'a>(row: &Row, other: &'a Row, place: usize) -> Option<&'a Value>
    ensures { option_copied result ≡ lower_found (slice_get row.now place) (slice_get other.now place) }
{
    match (row.get(place), other.get(place)) {
        (Some(x), Some(y)) => match compare(x, y) {
            Ordering::Greater => Some(y),
            _ => None,
        },
        _ => None,
    }
}
