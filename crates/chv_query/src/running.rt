// Rows of queries that group.
ghost use Rattle.std.specs.Prelude.{◌≡◌, ◌++◌, ◌∷◌, [], ℕ, List, Some, None, IsSome, IsTrue, map, take, drop, IfOk, IfErr, OnOk};
ghost use Rattle.std.specs.List.{All};
ghost use Rattle.chv_group.specs.Groups.{grouped};
ghost use Rattle.chv_group.specs.Takings.{HasTaken};
ghost use Rattle.chv_group.specs.declared.call.Keyed.{Keyed as Input};
ghost use Rattle.chv_query.specs.Bound.{TakesRow, first_division, made_by, term_in};
ghost use Rattle.chv_query.specs.Results.{AreInOrder, arranged, keyed, output_row, results, shaped};
ghost use Rattle.chv_types.specs.Values.{seen_value};
ghost use Rattle.chv_types.specs.declared.value.Value.{Value as SomeValue};

use crate::run::{have_width, passes};
use crate::{BlockFault, Groups, Query};
use chv_expr::{Bound, EvalFault, ZeroDivisor, value_at};
use chv_group::{AggCalls, Grouping};
use chv_types::{Block, Row, Seen, Value};
use std::alloc::{AllocError, Global};

/// The rows of a query that groups, over rows of its table.
#[tactic(auto, unfolding(crate::specs::Results::shaped))]
pub fn run_groups(
    alloc: Global,
    query: &Query,
    groups: &Groups,
    rows: &[Row],
) -> Result<Block, BlockFault>
    requires groups { query.now.grouping ≡ Some groups.now }
    requires takes { All (TakesRow query.now) rows.now }
    ensures rows { IfOk result (λ made. (made ≡ shaped (Some groups.now) (results (made_by query.now) rows.now)) × (first_division query.now rows.now ≡ None)) }
    ensures zero { IfErr result (λ fault. (row : ℕ) → fault ≡ BlockFault.ZeroDivisor row → first_division query.now rows.now ≡ Some row) }
{
    let grouping = feed_rows(alloc, query, groups, rows)?;
    Ok(finish(alloc, groups, grouping)?)
}

/// The same over rows that are not wanted any more: they are let go before others are made.
#[tactic(auto, unfolding(crate::specs::Results::shaped))]
pub fn run_groups_of(
    alloc: Global,
    query: &Query,
    groups: &Groups,
    rows: Block,
) -> Result<Block, BlockFault>
    requires groups { query.now.grouping ≡ Some groups.now }
    requires takes { All (TakesRow query.now) rows }
    ensures rows { IfOk result (λ made. (made ≡ shaped (Some groups.now) (results (made_by query.now) rows)) × (first_division query.now rows ≡ None)) }
    ensures zero { IfErr result (λ fault. (row : ℕ) → fault ≡ BlockFault.ZeroDivisor row → first_division query.now rows ≡ Some row) }
{
    let grouping = feed_rows(alloc, query, groups, rows.as_slice())?;
    drop(rows);
    Ok(finish(alloc, groups, grouping)?)
}

// The rows of a grouping, with the values that are shown.
fn finish(alloc: Global, groups: &Groups, grouping: Grouping) -> Result<Block, AllocError>
    ensures { IfOk result (λ made. (taken : List Input) → HasTaken grouping taken → made ≡ map (arranged groups.now.cells) (grouped grouping.calls taken groups.now.always)) }
{
    let made = grouping.finish(alloc, groups.always)?;
    arrange(alloc, groups.cells.as_slice(), made)
}

// A grouping that has taken what is made of rows.
fn feed_rows(
    alloc: Global,
    query: &Query,
    groups: &Groups,
    rows: &[Row],
) -> Result<Grouping, BlockFault>
    requires groups { query.now.grouping ≡ Some groups.now }
    requires takes { All (TakesRow query.now) rows.now }
    ensures calls { IfOk result (λ grouping. grouping.calls ≡ groups.now.calls) }
    ensures taken { IfOk result (λ grouping. HasTaken grouping (map (keyed groups.now.keys) (results (made_by query.now) rows.now))) }
    ensures whole { IfOk result (λ grouping. first_division query.now rows.now ≡ None) }
    ensures zero { IfErr result (λ fault. (row : ℕ) → fault ≡ BlockFault.ZeroDivisor row → first_division query.now rows.now ≡ Some row) }
{
    let calls = AggCalls::from_slice(alloc, groups.calls.as_slice())?;
    let mut grouping = Grouping::new(alloc, calls)?;
    let mut values = Vec::new(alloc);
    for i in 0..rows.len() {
        match feed(
            alloc,
            &mut grouping,
            &mut values,
            query,
            groups,
            rows[i].as_slice(),
        ) {
            Ok(()) => {}
            Err(EvalFault::ZeroDivisor) => return Err(BlockFault::ZeroDivisor { row: i }),
            Err(EvalFault::NoMemory) => return Err(BlockFault::NoMemory),
        }
    }
    Ok(grouping)
}

// Feeds what is made of a row to a grouping. The values stand in a vector that is used for all rows.
#[tactic(auto, unfolding(crate::specs::Results::outcome))]
fn feed<'a>(
    alloc: Global,
    grouping: &mut Grouping,
    values: &mut Vec<Seen<'a>>,
    query: &'a Query,
    groups: &Groups,
    row: &'a [Value],
) -> Result<(), EvalFault>
    requires groups { query.now.grouping ≡ Some groups.now }
    requires calls { grouping.old.calls ≡ groups.now.calls }
    requires takes { TakesRow query.now row.now }
    ensures calls { grouping.new.calls ≡ grouping.old.calls }
    ensures taken { OnOk result ((made : List (List SomeValue)) → made_by query.now row.now ≡ Some made → (taken : List Input) → HasTaken grouping.old taken
        → HasTaken grouping.new (taken ++ map (keyed groups.now.keys) made)) }
    ensures some { OnOk result (IsSome (made_by query.now row.now)) }
    ensures zero { IfErr result (λ fault. fault ≡ EvalFault.ZeroDivisor → made_by query.now row.now ≡ None) }
{
    if !passes(query.filter.as_ref(), row)? {
        return Ok(());
    }
    see_row(values, query.terms.as_slice(), row)?;
    let key = key_of(values.as_slice(), groups.keys);
    let args = args_of(values.as_slice(), groups.keys);
    grouping.feed(alloc, key, args)?;
    Ok(())
}

// Puts the values of terms over a row in place of others.
fn see_row<'a>(
    values: &mut Vec<Seen<'a>>,
    terms: &'a [Bound],
    row: &'a [Value],
) -> Result<(), EvalFault>
    ensures values { OnOk result (output_row (map term_in terms.now) row.now ≡ Some (map seen_value values.new.items)) }
    ensures zero { IfErr result (λ fault. fault ≡ EvalFault.ZeroDivisor → output_row (map term_in terms.now) row.now ≡ None) }
{
    values.clear();
    for term in terms {
        put_seen(values, term.seen(row)?)?;
    }
    Ok(())
}

// Puts a value behind others.
fn put_seen<'a>(values: &mut Vec<Seen<'a>>, seen: Seen<'a>) -> Result<(), AllocError>
    ensures { OnOk result (map seen_value values.new.items ≡ map seen_value values.old.items ++ seen_value seen.entry ∷ []) }
{
    values.push(seen)?;
    Ok(())
}

// The first values, so many, where they are there.
fn key_of<'a>(values: &'a [Seen<'a>], keys: usize) -> &'a [Seen<'a>]
    ensures { result.now ≡ take keys values.now }
{
    if keys <= values.len() {
        &values[..keys]
    } else {
        values
    }
}

// The values behind the first, so many.
fn args_of<'a>(values: &'a [Seen<'a>], keys: usize) -> &'a [Seen<'a>]
    ensures { result.now ≡ drop keys values.now }
{
    if keys <= values.len() {
        &values[keys..]
    } else {
        &values[values.len()..]
    }
}

// The values of each of some rows at these places. Rows that stay as they are are not copied.
fn arrange(alloc: Global, places: &[usize], rows: Block) -> Result<Block, AllocError>
    ensures { IfOk result (λ made. made ≡ map (arranged places.now) rows) }
{
    if keep_rows(places, rows.as_slice()) {
        return Ok(rows);
    }
    arrange_each(alloc, places, rows.as_slice())
}

// Whether the values of each of some rows at these places are the row.
fn keep_rows(places: &[usize], rows: &[Row]) -> bool
    ensures { IsTrue result → map (arranged places.now) rows.now ≡ rows.now }
{
    are_in_order(places) && have_width(rows, places.len())
}

// Whether places are those from the first on.
fn are_in_order(places: &[usize]) -> bool
    ensures { IsTrue result → AreInOrder places.now }
{
    for i in 0..places.len() {
        if places[i] != i {
            return false;
        }
    }
    true
}

// The values of each of some rows at these places, in new memory.
fn arrange_each(alloc: Global, places: &[usize], rows: &[Row]) -> Result<Block, AllocError>
    ensures { IfOk result (λ made. made ≡ map (arranged places.now) rows.now) }
{
    let mut made = Block::new(alloc);
    for row in rows {
        made.push(arranged(alloc, places, row.as_slice())?)?;
    }
    Ok(made)
}

// The values of a row at these places.
fn arranged(alloc: Global, places: &[usize], row: &[Value]) -> Result<Row, AllocError>
    ensures { IfOk result (λ values. values ≡ arranged places.now row.now) }
{
    let mut values = Row::from_vec(Vec::with_capacity(alloc, places.len())?);
    for place in places {
        values.push(value_at(row, *place).to_value(alloc)?)?;
    }
    Ok(values)
}
