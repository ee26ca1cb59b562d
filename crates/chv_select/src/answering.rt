// Answers.
ghost use Rattle.std.specs.Prelude.{◌≡◌, map, IfOk};
ghost use Rattle.std.specs.List.{All};
ghost use Rattle.chv_catalog.specs.Schemas.{kinds_of};
ghost use Rattle.chv_types.specs.Fits.{FitAll};
ghost use Rattle.chv_query.specs.Queries.{Asked};
ghost use Rattle.chv_query.specs.Shown.{order_cmp, shown, turned, up_to};
ghost use Rattle.chv_select.specs.Answers.{IsAnswer, IsPrepared};
ghost use Rattle.chv_types.specs.Order.{value_cmp};
ghost use Rattle.chv_expr.specs.Terms.{value_at};

use crate::Prepared;
use chv_ast::Refusal;
use chv_catalog::StatementFault;
use chv_expr::value_at;
use chv_query::{BlockFault, Sort, run_rows};
use chv_types::{Block, Columns, Kinds, Row, Value, compare_seen};
use std::alloc::{AllocError, Global};
use std::cmp::Ordering;

/// What is shown to a client.
#[derive(Drop)]
pub struct Answered {
    /// The kinds of the columns.
    pub kinds: Kinds,
    /// The rows, in the order in which they are shown.
    pub rows: Block,
}

/// What a query shows over all rows of its table: its rows, sorted by the columns of ORDER BY and then by all values, as many as
/// LIMIT says at most. It is refused with DivisionByZero alone.
pub fn answer(alloc: Global, prepared: &Prepared, rows: Block) -> Result<Answered, StatementFault>
    requires fit { (asked : Asked) × IsPrepared prepared.now asked × All (FitAll (kinds_of asked.def)) rows }
    ensures { (asked : Asked) → IsPrepared prepared.now asked → IsAnswer asked rows result }
{
    let kinds = kinds_of(alloc, prepared.query.columns())?;
    let made = match run_rows(alloc, &prepared.query, rows) {
        Ok(made) => made,
        Err(BlockFault::ZeroDivisor { .. }) => {
            return Err(StatementFault::Refused(Refusal::DivisionByZero));
        }
        Err(BlockFault::NoMemory) => return Err(StatementFault::NoMemory),
    };
    let rows = sort(prepared.query.order(), prepared.query.limit(), made);
    Ok(Answered { kinds, rows })
}

// The kinds of columns.
fn kinds_of(alloc: Global, columns: &Columns) -> Result<Kinds, AllocError>
    ensures { IfOk result (λ kinds. kinds ≡ map (λ column. column.kind) columns.now) }
{
    let mut kinds = Vec::with_capacity(alloc, columns.len())?;
    for column in columns.as_slice() {
        kinds.push(column.kind)?;
    }
    Ok(Kinds::from_vec(kinds))
}

// Rows in order, and the first of them.
fn sort(order: &[Sort], limit: Option<u64>, rows: Block) -> Block
    ensures { result ≡ shown order.now limit rows }
{
    let mut rows = rows.into_vec();
    rows.sort_unstable_by(|a, b| compare_rows(order, a, b));
    Block::from_vec(up_to(limit, rows))
}

// The first rows, as many as a limit says at most.
fn up_to(limit: Option<u64>, mut rows: Vec<Row>) -> Vec<Row>
    ensures { result.items ≡ up_to limit rows.items }
{
    match limit {
        Some(limit) if limit < rows.len() as u64 => {
            rows.truncate(limit as usize);
            rows
        }
        _ => rows,
    }
}

// How two rows stand to each other.
fn compare_rows(order: &[Sort], a: &Row, b: &Row) -> Ordering
    ensures { result ≡ order_cmp order.now a.now b.now }
{
    for sort in order {
        match compare_at(sort, a.as_slice(), b.as_slice()) {
            Ordering::Equal => {}
            found => return found,
        }
    }
    a.as_slice().cmp(b.as_slice())
}

// How the values of two rows at a column to sort by stand to each other.
fn compare_at(sort: &Sort, a: &[Value], b: &[Value]) -> Ordering
    ensures { result ≡ turned sort.now.down (value_cmp (value_at sort.now.place a.now) (value_at sort.now.place b.now)) }
{
    let order = compare_seen(value_at(a, sort.place), value_at(b, sort.place));
    if sort.down { order.reverse() } else { order }
}
