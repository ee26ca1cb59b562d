// What is evaluated on each row, and what becomes of it.
ghost use Rattle.std.specs.Prelude.{◌≡◌, List, IfOk};
ghost use Rattle.std.specs.List.{list_any};
ghost use Rattle.chv_query.specs.Bound.{AnswersAs, AreCells, AreKeys, IsShape};
ghost use Rattle.chv_query.specs.Keys.{Key};
ghost use Rattle.chv_query.specs.Shapes.{Cells, is_call, is_grouping, shape_of, shape_of_cells, shape_of_groups};
ghost use Rattle.chv_types.specs.declared.table.Column.{Column as SomeColumn};

use crate::Groups;
use crate::calls::wanted;
use crate::cells::{BoundCells, bind_cells};
use crate::keys::{Keys, bind_keys};
use crate::output::bind_outputs;
use chv_ast::{Expr, Item, Select};
use chv_catalog::StatementFault;
use chv_expr::Bound;
use chv_types::Columns;
use sqlite_items::Items;
use std::alloc::{AllocError, Global};

/// What gives the values that are evaluated on each row, how these are grouped, if they are, and the output columns.
#[derive(Drop)]
pub struct BoundShape {
    pub terms: Items<Bound>,
    pub grouping: Option<Groups>,
    pub columns: Columns,
}

/// The shape of a query over columns.
#[tactic(auto, unfolding(crate::specs::Shapes::shape_of))]
pub fn bind_shape(
    alloc: Global,
    columns: &Columns,
    select: &Select,
) -> Result<BoundShape, StatementFault>
    ensures { AnswersAs (IsShape columns.now) (shape_of columns.now select.now) result }
{
    if is_grouping(select) {
        return bind_groups(
            alloc,
            columns,
            select.keys.as_slice(),
            select.items.as_slice(),
        );
    }
    let found = bind_outputs(alloc, columns, select.items.as_slice())?;
    Ok(BoundShape {
        terms: found.bounds,
        grouping: None,
        columns: found.columns,
    })
}

// Whether a select groups: it has keys, or a call of an aggregate function as an item.
fn is_grouping(select: &Select) -> bool
    ensures { result ≡ is_grouping select.now }
{
    !select.keys.is_empty() || has_call(select.items.as_slice())
}

// Whether one of items is a call of an aggregate function.
fn has_call(items: &[Item]) -> bool
    ensures { result ≡ list_any is_call items.now }
{
    items.iter().any(|item| is_call(item))
}

// Whether an item is a call of an aggregate function.
fn is_call(item: &Item) -> bool
    ensures { result ≡ is_call item.now }
{
    match item {
        Item::All => false,
        Item::One { expr, alias: _ } => wanted(expr).is_some(),
    }
}

// The shape of a query that groups.
fn bind_groups(
    alloc: Global,
    columns: &Columns,
    keys: &[Expr],
    items: &[Item],
) -> Result<BoundShape, StatementFault>
    ensures { AnswersAs (IsShape columns.now) (shape_of_groups columns.now keys.now items.now) result }
{
    let keys = bind_keys(alloc, columns, items, keys)?;
    let cells = bind_cells(alloc, columns, &keys, items)?;
    Ok(shape_of_cells(keys, cells)?)
}

// The shape of keys and cells.
fn shape_of_cells(keys: Keys, cells: BoundCells) -> Result<BoundShape, AllocError>
    ensures { IfOk result (λ shape. (source : List SomeColumn) (known : List Key) (found : Cells) → AreKeys source keys known → AreCells source cells found
        → IsShape source shape (shape_of_cells known found)) }
{
    let Keys {
        bounds: mut terms,
        texts: _,
    } = keys;
    let BoundCells {
        calls,
        args,
        columns,
        places,
    } = cells;
    let keys = terms.len();
    terms.append(args)?;
    let groups = Groups {
        keys,
        calls,
        cells: places,
        always: keys == 0,
    };
    Ok(BoundShape {
        terms,
        grouping: Some(groups),
        columns,
    })
}
