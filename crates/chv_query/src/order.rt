// What sorts the rows of a query, and how many are shown.
ghost use Rattle.std.specs.Prelude.{◌≡◌};
ghost use Rattle.std.specs.Option.{option_copied};
ghost use Rattle.chv_query.specs.Bound.{AnswersAs};
ghost use Rattle.chv_query.specs.Queries.{limit_of, sort_of, sorts_of};

use crate::Sort;
use chv_ast::{Digits, Order, Refusal};
use chv_catalog::{StatementFault, is_state, place};
use chv_types::{Column, Columns, whole_number};
use sqlite_items::Items;
use std::alloc::Global;

/// The columns to sort by, of these output columns.
pub fn bind_order(
    alloc: Global,
    columns: &Columns,
    orders: &[Order],
) -> Result<Items<Sort>, StatementFault>
    ensures { AnswersAs ◌≡◌ (sorts_of columns.now orders.now) result }
{
    let mut sorts = Items::new(alloc);
    for order in orders {
        sorts.push(bind_sort(columns.as_slice(), order)?)?;
    }
    Ok(sorts)
}

// The column to sort by, of these output columns.
fn bind_sort(columns: &[Column], order: &Order) -> Result<Sort, Refusal>
    ensures { result ≡ sort_of columns.now order.now }
{
    match place(columns, order.name.as_slice()) {
        Some(place) if is_state(columns[place].kind) => Err(Refusal::TypeMismatch),
        Some(place) => Ok(Sort {
            place,
            down: order.down,
        }),
        None => Err(Refusal::UnknownColumn),
    }
}

/// How many rows are shown at most.
pub fn bind_limit(digits: Option<&Digits>) -> Result<Option<u64>, Refusal>
    ensures { result ≡ limit_of (option_copied digits.entry) }
{
    match digits {
        None => Ok(None),
        Some(digits) => match whole_number(digits.as_slice()) {
            Some(limit) => Ok(Some(limit)),
            None => Err(Refusal::BadLiteral),
        },
    }
}
