// Queries of views.
ghost use Rattle.std.specs.Prelude.{◌≡◌, ℕ, List, map, false, true, slice_get, IfOk, IfErr, IsTrue};
ghost use Rattle.std.specs.List.{All};
ghost use Rattle.std.specs.Option.{option_and_then, option_copied};
ghost use Rattle.chv_query.specs.Bound.{AnswersAs, TakesRow};
ghost use Rattle.chv_query.specs.Derived.{viewed};
ghost use Rattle.chv_query.specs.Queries.{Asked, asked, divides};
ghost use Rattle.chv_query.specs.ViewQueries.{AreInOrder, IsViewQuery, filled_by, filling_value, fillings};
ghost use Rattle.chv_types.specs.declared.table.Column.{Column as SomeColumn};

use crate::run::have_width;
use crate::{BlockFault, Query, bind, run_block};
use chv_catalog::{Schema, StatementFault, TableDef, ViewDef, place};
use chv_types::{Block, Column, Kind, Row, Value, default_value};
use sqlite_items::Items;
use std::alloc::{AllocError, Global};

/// What goes to a column: the value at this place of what a query shows, if it shows one for it, else the default of its kind.
#[derive(Clone, Copy)]
pub struct Filling {
    pub(crate) place: Option<usize>,
    pub(crate) kind: Kind,
}

/// The query of a view, bound to its source, and what of it goes to each column of its target.
#[derive(Drop)]
pub struct ViewQuery {
    pub(crate) query: Query,
    pub(crate) fillings: Items<Filling>,
}

/// The query of a view whose target is this table, or the first check that refuses it.
pub fn bind_view(
    alloc: Global,
    schema: &Schema,
    view: &ViewDef,
    target: &TableDef,
) -> Result<ViewQuery, StatementFault>
    ensures { AnswersAs (IsViewQuery target.now.columns) (asked schema.now.catalog view.now.select) result }
{
    let query = bind(alloc, schema, &view.select)?;
    let fillings = fillings(alloc, query.columns().as_slice(), target.columns.as_slice())?;
    Ok(ViewQuery { query, fillings })
}

// What goes to each of some columns of what a query shows.
fn fillings(
    alloc: Global,
    shown: &[Column],
    columns: &[Column],
) -> Result<Items<Filling>, AllocError>
    ensures { IfOk result (λ filled. filled ≡ fillings shown.now columns.now) }
{
    let mut filled = Items::new(alloc);
    for column in columns {
        filled.push(Filling {
            place: place(shown, column.name.as_slice()),
            kind: column.kind,
        })?;
    }
    Ok(filled)
}

/// What a view makes of a block of its source, for its target. Of a block of no rows it makes nothing.
pub fn run_view(alloc: Global, view: &ViewQuery, block: &Block) -> Result<Block, BlockFault>
    requires takes { All (TakesRow view.now.query) block.now }
    ensures rows { IfOk result (λ rows. (query : Asked) (columns : List SomeColumn) → IsViewQuery columns view.now query → (rows ≡ viewed query columns block.now) × (divides query block.now ≡ false)) }
    ensures zero { IfErr result (λ fault. (row : ℕ) (query : Asked) (columns : List SomeColumn) → fault ≡ BlockFault.ZeroDivisor row → IsViewQuery columns view.now query → divides query block.now ≡ true) }
{
    if block.len() == 0 {
        return Ok(Block::new(alloc));
    }
    let made = run_block(alloc, &view.query, block)?;
    Ok(fill_rows(alloc, view.fillings.as_slice(), made)?)
}

// Rows for the columns that these fill: as they are, where they fill them in order.
fn fill_rows(alloc: Global, fillings: &[Filling], block: Block) -> Result<Block, AllocError>
    ensures { IfOk result (λ rows. rows ≡ map (filled_by fillings.now) block) }
{
    if are_in_order(fillings) && have_width(block.as_slice(), fillings.len()) {
        return Ok(block);
    }
    fill_each(alloc, fillings, block.as_slice())
}

// New rows for the columns that these fill.
fn fill_each(alloc: Global, fillings: &[Filling], rows: &[Row]) -> Result<Block, AllocError>
    ensures { IfOk result (λ filled. filled ≡ map (filled_by fillings.now) rows.now) }
{
    let mut filled = Block::new(alloc);
    for row in rows {
        filled.push(fill_row(alloc, fillings, row.as_slice())?)?;
    }
    Ok(filled)
}

// A new row for the columns that these fill.
fn fill_row(alloc: Global, fillings: &[Filling], values: &[Value]) -> Result<Row, AllocError>
    ensures { IfOk result (λ row. row ≡ filled_by fillings.now values.now) }
{
    let mut row = Row::from_vec(Vec::with_capacity(alloc, fillings.len())?);
    for filling in fillings {
        row.push(fill(alloc, *filling, values)?)?;
    }
    Ok(row)
}

// The value for a column.
fn fill(alloc: Global, filling: Filling, values: &[Value]) -> Result<Value, AllocError>
    ensures { IfOk result (λ value. value ≡ filling_value values.now filling) }
{
    match value_at(filling.place, values) {
        Some(value) => value.seen().to_value(alloc),
        None => default_value(alloc, filling.kind),
    }
}

// The value at a place, if there is one.
fn value_at(place: Option<usize>, values: &[Value]) -> Option<&Value>
    ensures { option_copied result ≡ option_and_then (slice_get values.now) place }
{
    values.get(place?)
}

// Whether the values fill the columns in their order, from the first on.
fn are_in_order(fillings: &[Filling]) -> bool
    ensures { IsTrue result → AreInOrder 0 fillings.now }
{
    for i in 0..fillings.len() {
        if fillings[i].place != Some(i) {
            return false;
        }
    }
    true
}
