// The output columns of a query that groups.
ghost use Rattle.std.specs.Prelude.{◌≡◌, List, IfErr, OnOk, Ok, Err};
ghost use Rattle.chv_ast.specs.declared.refusal.Refusal.{Refusal as SomeRefusal};
ghost use Rattle.chv_query.specs.Bound.{AnswersAs, AreCells, AreKeys, IsCall, IsKeyShown};
ghost use Rattle.chv_query.specs.Calls.{Called, wanted};
ghost use Rattle.chv_query.specs.Keys.{Key};
ghost use Rattle.chv_query.specs.Shapes.{Cells, key_shown, no_cells, put_item, put_items, put_key, put_wanted, with_call};
ghost use Rattle.chv_types.specs.Names.{place_of};
ghost use Rattle.chv_types.specs.declared.table.Column.{Column as SomeColumn};

use crate::calls::{BoundCall, bind_call, call_kind, wanted};
use crate::keys::Keys;
use crate::output::{bind_one, name_of};
use chv_ast::{Expr, Item, Refusal};
use chv_catalog::StatementFault;
use chv_expr::Bound;
use chv_group::AggCalls;
use chv_print::expr_text;
use chv_types::{Bytes, Column, Columns, Kind};
use sqlite_items::Items;
use std::alloc::{AllocError, Global};

/// Calls, what gives their arguments, and output columns with their places among keys and results.
#[derive(Drop)]
pub struct BoundCells {
    pub calls: AggCalls,
    pub args: Items<Bound>,
    pub columns: Columns,
    pub places: Items<usize>,
}

/// The output columns of items over columns and keys.
pub fn bind_cells(
    alloc: Global,
    columns: &Columns,
    keys: &Keys,
    items: &[Item],
) -> Result<BoundCells, StatementFault>
    ensures { (known : List Key) → AreKeys columns.now keys.now known
        → AnswersAs (AreCells columns.now) (put_items columns.now known no_cells items.now) result }
{
    let mut cells = BoundCells {
        calls: Items::new(alloc),
        args: Items::new(alloc),
        columns: Columns::new(alloc),
        places: Items::new(alloc),
    };
    for item in items {
        match put_item(alloc, &mut cells, columns, keys, item) {
            Ok(()) => {}
            Err(fault) => return Err(fault),
        }
    }
    Ok(cells)
}

// Puts an item behind others.
fn put_item(
    alloc: Global,
    cells: &mut BoundCells,
    columns: &Columns,
    keys: &Keys,
    item: &Item,
) -> Result<(), StatementFault>
    ensures put { OnOk result ((known : List Key) (before : Cells) → AreKeys columns.now keys.now known → AreCells columns.now cells.old before
        → (after : Cells) × (put_item columns.now known before item.now ≡ Ok after) × AreCells columns.now cells.new after) }
    ensures refused { IfErr result (λ fault. (refusal : SomeRefusal) → fault ≡ StatementFault.Refused refusal
        → (known : List Key) (before : Cells) → AreKeys columns.now keys.now known → put_item columns.now known before item.now ≡ Err refusal) }
{
    match item {
        Item::All => Err(StatementFault::Refused(Refusal::TypeMismatch)),
        Item::One { expr, alias } => {
            let name = name_of(alloc, alias.as_ref(), expr)?;
            put_expr(alloc, cells, columns, keys, name, expr)
        }
    }
}

// Puts an expression as an item behind others.
fn put_expr(
    alloc: Global,
    cells: &mut BoundCells,
    columns: &Columns,
    keys: &Keys,
    name: Bytes,
    expr: &Expr,
) -> Result<(), StatementFault>
    ensures put { OnOk result ((known : List Key) (before : Cells) → AreKeys columns.now keys.now known → AreCells columns.now cells.old before
        → (after : Cells) × (put_wanted columns.now known before name expr.now (wanted expr.now) ≡ Ok after) × AreCells columns.now cells.new after) }
    ensures refused { IfErr result (λ fault. (refusal : SomeRefusal) → fault ≡ StatementFault.Refused refusal
        → (known : List Key) (before : Cells) → AreKeys columns.now keys.now known → put_wanted columns.now known before name expr.now (wanted expr.now) ≡ Err refusal) }
{
    match wanted(expr) {
        Some((agg, form, args)) => {
            let call = bind_call(alloc, columns, agg, form, args)?;
            push_call(cells, name, keys.bounds.len(), call)?;
            Ok(())
        }
        None => put_key(alloc, cells, columns, keys, name, expr),
    }
}

// Puts a call behind others, behind so many keys.
fn push_call(
    cells: &mut BoundCells,
    name: Bytes,
    keys: usize,
    call: BoundCall,
) -> Result<(), AllocError>
    ensures { OnOk result ((source : List SomeColumn) (before : Cells) (called : Called) → AreCells source cells.old before → IsCall source call called
        → AreCells source cells.new (with_call name keys before called)) }
{
    let BoundCall { call, arg } = call;
    let place = keys.checked_add(cells.calls.len()).ok_or(AllocError)?;
    let kind = call_kind(call);
    cells.calls.push(call)?;
    cells.args.push(arg)?;
    cells.columns.push(Column { name, kind })?;
    cells.places.push(place)?;
    Ok(())
}

// Puts an expression that is no call of an aggregate function behind others: it shows a key.
fn put_key(
    alloc: Global,
    cells: &mut BoundCells,
    columns: &Columns,
    keys: &Keys,
    name: Bytes,
    expr: &Expr,
) -> Result<(), StatementFault>
    ensures put { OnOk result ((known : List Key) (before : Cells) → AreKeys columns.now keys.now known → AreCells columns.now cells.old before
        → (after : Cells) × (put_key columns.now known before name expr.now ≡ Ok after) × AreCells columns.now cells.new after) }
    ensures refused { IfErr result (λ fault. (refusal : SomeRefusal) → fault ≡ StatementFault.Refused refusal
        → (known : List Key) (before : Cells) → AreKeys columns.now keys.now known → put_key columns.now known before name expr.now ≡ Err refusal) }
{
    let shown = key_shown(alloc, columns, keys, expr)?;
    cells.columns.push(Column {
        name,
        kind: shown.1,
    })?;
    cells.places.push(shown.0)?;
    Ok(())
}

// The place and the kind of the key that an expression shows.
fn key_shown(
    alloc: Global,
    columns: &Columns,
    keys: &Keys,
    expr: &Expr,
) -> Result<(usize, Kind), StatementFault>
    ensures { (known : List Key) → AreKeys columns.now keys.now known
        → AnswersAs IsKeyShown (key_shown columns.now known expr.now) result }
{
    bind_one(alloc, columns, expr)?;
    let text = expr_text(alloc, expr)?;
    match place_of(keys.texts.as_slice(), text.as_slice()) {
        Some(place) => match keys.bounds.get(place) {
            Some(bound) => Ok((place, bound.kind())),
            None => Err(StatementFault::Refused(Refusal::TypeMismatch)),
        },
        None => Err(StatementFault::Refused(Refusal::TypeMismatch)),
    }
}

// The place of the first of texts that is this one.
fn place_of(texts: &[Bytes], text: &[u8]) -> Option<usize>
    ensures { result ≡ place_of text.now texts.now }
{
    texts.iter().position(|other| other.as_slice() == text)
}
