// Keys of groups, and their order.
ghost use Rattle.std.specs.Prelude.{◌≡◌, ◌∷◌, [], map, IfOk};
ghost use Rattle.std.specs.List.Sorted.{IsPermutation, IsSortedBy};
ghost use Rattle.chv_group.specs.Keys.{key_below, key_values};
ghost use Rattle.chv_types.specs.Order.{row_cmp};
ghost use Rattle.chv_types.specs.Values.{seen_value};
ghost use Rattle.chv_types.specs.declared.value.Value.TheVariants as value;

use crate::key_names::number_in;
use chv_types::{Row, Seen, Value};
use std::alloc::{AllocError, Global};
use std::cmp::Ordering;

/// The values of a key. One that is a number takes no memory of its own.
#[derive(Debug, Drop)]
pub enum GroupKey {
    /// One number.
    Number(i128),
    /// Any values.
    Values(Row),
}

/// A key, and which of the keys it is in the order in which they came, from 0 on.
#[derive(Debug, Drop)]
pub struct PlacedKey {
    pub(crate) key: GroupKey,
    pub(crate) place: usize,
}

/// The key of these values, which has room for so many more.
pub(crate) fn key_of(alloc: Global, key: &[Seen<'_>], more: usize) -> Result<GroupKey, AllocError>
    ensures { IfOk result (λ made. key_values made ≡ map seen_value key.now) }
{
    match number_in(key) {
        Some(n) => Ok(GroupKey::Number(n)),
        None => Ok(GroupKey::Values(row_of(alloc, key, more)?)),
    }
}

// The values that are seen, in new memory that has room for so many more.
fn row_of(alloc: Global, key: &[Seen<'_>], more: usize) -> Result<Row, AllocError>
    ensures { IfOk result (λ row. row ≡ map seen_value key.now) }
{
    let mut values = Vec::with_capacity(alloc, key.len().saturating_add(more))?;
    for value in key {
        values.push(value.to_value(alloc)?)?;
    }
    Ok(Row::from_vec(values))
}

/// The values of a key; of a number in new memory that has room for so many more.
pub(crate) fn into_row(alloc: Global, key: GroupKey, more: usize) -> Result<Row, AllocError>
    ensures { IfOk result (λ row. row ≡ key_values key) }
{
    match key {
        GroupKey::Number(n) => number_row(alloc, n, more),
        GroupKey::Values(row) => Ok(row),
    }
}

// The row of a number, in new memory that has room for so many more values.
fn number_row(alloc: Global, n: i128, more: usize) -> Result<Row, AllocError>
    ensures { IfOk result (λ row. row ≡ value.Whole n ∷ []) }
{
    let mut row = Row::from_vec(Vec::with_capacity(alloc, more.saturating_add(1))?);
    row.push(Value::Whole(n))?;
    Ok(row)
}

/// Keys in their order.
pub(crate) fn sorted(mut keys: Vec<PlacedKey>) -> Vec<PlacedKey>
    ensures moved { IsPermutation keys.items result.items }
    ensures sorted { IsSortedBy key_below result.items }
{
    keys.sort_unstable_by(|a, b| compare(&a.key, &b.key));
    keys
}

// How two keys stand to each other.
fn compare(a: &GroupKey, b: &GroupKey) -> Ordering
    ensures { result ≡ row_cmp (key_values a.now) (key_values b.now) }
{
    match a {
        GroupKey::Number(m) => match b {
            GroupKey::Number(n) => compare_numbers(*m, *n),
            GroupKey::Values(row) => compare_number(*m, row.as_slice()),
        },
        GroupKey::Values(row) => match b {
            GroupKey::Number(n) => compare_to_number(row.as_slice(), *n),
            GroupKey::Values(other) => row.as_slice().cmp(other.as_slice()),
        },
    }
}

// How two keys that are numbers stand to each other.
#[tactic(auto, using(crate::proofs::KeyLemmas::number_order))]
fn compare_numbers(m: i128, n: i128) -> Ordering
    ensures { result ≡ row_cmp (value.Whole m ∷ []) (value.Whole n ∷ []) }
{
    m.cmp(&n)
}

// How a key that is a number stands to other values.
fn compare_number(n: i128, values: &[Value]) -> Ordering
    ensures { result ≡ row_cmp (value.Whole n ∷ []) values.now }
{
    let number = [Value::Whole(n)];
    number.as_slice().cmp(values)
}

// How values stand to a key that is a number.
fn compare_to_number(values: &[Value], n: i128) -> Ordering
    ensures { result ≡ row_cmp values.now (value.Whole n ∷ []) }
{
    let number = [Value::Whole(n)];
    values.cmp(number.as_slice())
}
