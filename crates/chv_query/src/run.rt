// Rows of queries.
ghost use Rattle.std.specs.Prelude.{◌≡◌, ℕ, length, map, IfOk, IfErr, IsTrue, Some, None};
ghost use Rattle.std.specs.List.{All};
ghost use Rattle.std.specs.Option.{option_copied, option_map, option_to_list};
ghost use Rattle.std.specs.Result.{result_ok};
ghost use Rattle.chv_query.specs.Bound.{AreColumns, TakesRow, first_division, made_by, run, term_in};
ghost use Rattle.chv_query.specs.Results.{output_row, passes, results};

use crate::running::{run_groups, run_groups_of};
use crate::{BlockFault, Query};
use chv_expr::{Bound, EvalFault, ZeroDivisor};
use chv_types::{Block, Row, Seen, Value};
use std::alloc::Global;

/// The rows of a query over the rows of its table: in their order, or where it groups one for each key, in the order of keys.
/// `ZeroDivisor` has the first row on which a divisor is zero.
#[tactic(auto, unfolding(crate::specs::Results::shaped))]
pub fn run_block(alloc: Global, query: &Query, block: &Block) -> Result<Block, BlockFault>
    requires takes { All (TakesRow query.now) block.now }
    ensures rows { IfOk result (λ rows. (rows ≡ run query.now block.now) × (first_division query.now block.now ≡ None)) }
    ensures zero { IfErr result (λ fault. (row : ℕ) → fault ≡ BlockFault.ZeroDivisor row → first_division query.now block.now ≡ Some row) }
{
    match &query.grouping {
        None => run_each(alloc, query, block.as_slice()),
        Some(groups) => run_groups(alloc, query, groups, block.as_slice()),
    }
}

/// The same over rows that are not wanted any more: where all are shown as they are, none is copied.
#[tactic(auto, unfolding(crate::specs::Results::shaped))]
pub fn run_rows(alloc: Global, query: &Query, block: Block) -> Result<Block, BlockFault>
    requires takes { All (TakesRow query.now) block }
    ensures rows { IfOk result (λ rows. (rows ≡ run query.now block) × (first_division query.now block ≡ None)) }
    ensures zero { IfErr result (λ fault. (row : ℕ) → fault ≡ BlockFault.ZeroDivisor row → first_division query.now block ≡ Some row) }
{
    if shows_all(query, block.as_slice()) {
        return Ok(block);
    }
    match &query.grouping {
        None => run_each(alloc, query, block.as_slice()),
        Some(groups) => run_groups_of(alloc, query, groups, block),
    }
}

// What a query makes of each of some rows.
fn run_each(alloc: Global, query: &Query, rows: &[Row]) -> Result<Block, BlockFault>
    ensures rows { IfOk result (λ made. (made ≡ results (made_by query.now) rows.now) × (first_division query.now rows.now ≡ None)) }
    ensures zero { IfErr result (λ fault. (row : ℕ) → fault ≡ BlockFault.ZeroDivisor row → first_division query.now rows.now ≡ Some row) }
{
    let mut made = Block::new(alloc);
    for i in 0..rows.len() {
        match make(alloc, query, rows[i].as_slice()) {
            Ok(Some(row)) => made.push(row)?,
            Ok(None) => {}
            Err(EvalFault::ZeroDivisor) => return Err(BlockFault::ZeroDivisor { row: i }),
            Err(EvalFault::NoMemory) => return Err(BlockFault::NoMemory),
        }
    }
    Ok(made)
}

// Whether a query shows all of some rows as they are.
fn shows_all(query: &Query, rows: &[Row]) -> bool
    ensures { IsTrue result → (query.now.grouping ≡ None) × (query.now.filter ≡ None) × All (λ row. output_row (map term_in query.now.terms) row ≡ Some row) rows.now }
{
    match &query.grouping {
        Some(_) => false,
        None => match &query.filter {
            Some(_) => false,
            None => shows_rows(query.terms.as_slice(), rows),
        },
    }
}

// Whether the outputs over each of some rows are its values as they are.
fn shows_rows(outputs: &[Bound], rows: &[Row]) -> bool
    ensures { IsTrue result → All (λ row. output_row (map term_in outputs.now) row ≡ Some row) rows.now }
{
    are_columns(outputs) && have_width(rows, outputs.len())
}

/// Whether each of some rows has so many values.
pub fn have_width(rows: &[Row], width: usize) -> bool
    ensures { IsTrue result → All (λ row. length row ≡ width) rows.now }
{
    rows.iter().all(|row| row.len() == width)
}

// Whether the outputs are the columns of a row, from the first on.
fn are_columns(outputs: &[Bound]) -> bool
    ensures { IsTrue result → AreColumns outputs.now }
{
    for i in 0..outputs.len() {
        if outputs[i].place() != Some(i) {
            return false;
        }
    }
    true
}

// What a query makes of a row: none where it does not pass.
#[tactic(auto, unfolding(crate::specs::Results::outcome))]
fn make(alloc: Global, query: &Query, row: &[Value]) -> Result<Option<Row>, EvalFault>
    ensures made { IfOk result (λ made. made_by query.now row.now ≡ Some (option_to_list made)) }
    ensures zero { IfErr result (λ fault. fault ≡ EvalFault.ZeroDivisor → made_by query.now row.now ≡ None) }
{
    if !passes(query.filter.as_ref(), row)? {
        return Ok(None);
    }
    Ok(Some(output_row(alloc, query.terms.as_slice(), row)?))
}

/// Whether a row passes the condition, where there is one.
pub fn passes(filter: Option<&Bound>, row: &[Value]) -> Result<bool, ZeroDivisor>
    ensures { result_ok result ≡ passes (option_map term_in (option_copied filter.entry)) row.now }
{
    match filter {
        None => Ok(true),
        Some(condition) => match condition.seen(row)? {
            Seen::Truth(truth) => Ok(truth),
            _ => Ok(false),
        },
    }
}

// The values of outputs over a row.
fn output_row(alloc: Global, outputs: &[Bound], row: &[Value]) -> Result<Row, EvalFault>
    ensures values { IfOk result (λ values. output_row (map term_in outputs.now) row.now ≡ Some values) }
    ensures zero { IfErr result (λ fault. fault ≡ EvalFault.ZeroDivisor → output_row (map term_in outputs.now) row.now ≡ None) }
{
    let mut values = Row::from_vec(Vec::with_capacity(alloc, outputs.len())?);
    for output in outputs {
        values.push(output.seen(row)?.to_value(alloc)?)?;
    }
    Ok(values)
}
