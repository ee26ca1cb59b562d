// The condition and the output columns of a query.
ghost use Rattle.std.specs.Prelude.{◌≡◌, ◌++◌, List, IfOk, IfErr, OnOk, Ok, Err};
ghost use Rattle.std.specs.Option.{option_copied};
ghost use Rattle.chv_ast.specs.declared.refusal.Refusal.{Refusal as SomeRefusal};
ghost use Rattle.chv_expr.specs.Bindings.{Means, refusal_of};
ghost use Rattle.chv_expr.specs.Terms.{term_of};
ghost use Rattle.chv_query.specs.Bound.{AnswersAs, AreOutputs, IsFilter};
ghost use Rattle.chv_query.specs.Outputs.{Output, columns_from, filter_of, is_truth, item_outputs, output_name, outputs_of};

use chv_ast::{Expr, Item, Name, Refusal};
use chv_catalog::StatementFault;
use chv_expr::{Bound, Untyped, bind_expr};
use chv_print::expr_text;
use chv_types::{Bytes, Column, Columns, Kind, Scalar};
use sqlite_items::Items;
use std::alloc::{AllocError, Global};

/// Output columns: their names and kinds, and what gives their values.
#[derive(Drop)]
pub struct Outputs {
    pub columns: Columns,
    pub bounds: Items<Bound>,
}

/// The condition of a query over columns, which has to be a truth.
pub fn bind_filter(
    alloc: Global,
    columns: &Columns,
    filter: Option<&Expr>,
) -> Result<Option<Bound>, StatementFault>
    ensures { AnswersAs (IsFilter columns.now) (filter_of columns.now (option_copied filter.entry)) result }
{
    let Some(condition) = filter else {
        return Ok(None);
    };
    let bound = bind_one(alloc, columns, condition)?;
    if !is_truth(bound.kind()) {
        return Err(StatementFault::Refused(Refusal::TypeMismatch));
    }
    Ok(Some(bound))
}

// Whether a kind is that of truths.
fn is_truth(kind: Kind) -> bool
    ensures { result ≡ is_truth kind }
{
    matches!(kind, Kind::Plain(Scalar::Bool))
}

/// The output columns of items over columns.
pub fn bind_outputs(
    alloc: Global,
    columns: &Columns,
    items: &[Item],
) -> Result<Outputs, StatementFault>
    ensures { AnswersAs (AreOutputs columns.now) (outputs_of columns.now items.now) result }
{
    let mut outputs = Outputs {
        columns: Columns::new(alloc),
        bounds: Items::new(alloc),
    };
    for item in items {
        put_item(alloc, &mut outputs, columns, item)?;
    }
    Ok(outputs)
}

// Puts the output columns of an item behind others.
fn put_item(
    alloc: Global,
    outputs: &mut Outputs,
    columns: &Columns,
    item: &Item,
) -> Result<(), StatementFault>
    ensures put { OnOk result ((before : List Output) → AreOutputs columns.now outputs.old before
        → (more : List Output) × (item_outputs columns.now item.now ≡ Ok more) × AreOutputs columns.now outputs.new (before ++ more)) }
    ensures refused { IfErr result (λ fault. (refusal : SomeRefusal) → fault ≡ StatementFault.Refused refusal → item_outputs columns.now item.now ≡ Err refusal) }
{
    match item {
        Item::All => {
            put_columns(alloc, outputs, columns.as_slice())?;
            Ok(())
        }
        Item::One { expr, alias } => {
            let bound = bind_one(alloc, columns, expr)?;
            let name = name_of(alloc, alias.as_ref(), expr)?;
            outputs.columns.push(Column {
                name,
                kind: bound.kind(),
            })?;
            outputs.bounds.push(bound)?;
            Ok(())
        }
    }
}

// Puts all columns behind outputs.
fn put_columns(alloc: Global, outputs: &mut Outputs, columns: &[Column]) -> Result<(), AllocError>
    ensures { OnOk result ((before : List Output) → AreOutputs columns.now outputs.old before
        → AreOutputs columns.now outputs.new (before ++ columns_from 0 columns.now)) }
{
    for place in 0..columns.len() {
        let column = &columns[place];
        outputs.columns.push(Column {
            name: Bytes::from_slice(alloc, column.name.as_slice())?,
            kind: column.kind,
        })?;
        let bound = Bound::column(alloc, place, column.kind)?;
        outputs.bounds.push(bound)?;
    }
    Ok(())
}

/// An expression over columns.
pub fn bind_one(alloc: Global, columns: &Columns, expr: &Expr) -> Result<Bound, StatementFault>
    ensures { AnswersAs (Means columns.now) (term_of columns.now expr.now) result }
{
    match bind_expr(alloc, expr, columns) {
        Ok(bound) => Ok(bound),
        Err(fault) => Err(fault_of(fault)),
    }
}

/// The fault of a statement with an expression that has no kind.
pub fn fault_of(fault: Untyped) -> StatementFault
    ensures { (refusal : SomeRefusal) → result ≡ StatementFault.Refused refusal → refusal_of fault ≡ Some refusal }
{
    match fault {
        Untyped::UnknownColumn => StatementFault::Refused(Refusal::UnknownColumn),
        Untyped::UnknownFunction => StatementFault::Refused(Refusal::UnknownFunction),
        Untyped::TypeMismatch => StatementFault::Refused(Refusal::TypeMismatch),
        Untyped::BadLiteral => StatementFault::Refused(Refusal::BadLiteral),
        Untyped::NoMemory => StatementFault::NoMemory,
    }
}

/// The name of an output column: its alias, or its column's name, or its canonical text.
pub fn name_of(alloc: Global, alias: Option<&Name>, expr: &Expr) -> Result<Bytes, AllocError>
    ensures { IfOk result (λ name. name ≡ output_name (option_copied alias.entry) expr.now) }
{
    match alias {
        Some(alias) => Bytes::from_slice(alloc, alias.as_slice()),
        None => match expr {
            Expr::Column(name) => Bytes::from_slice(alloc, name.as_slice()),
            _ => Ok(Bytes::from_vec(expr_text(alloc, expr)?)),
        },
    }
}
