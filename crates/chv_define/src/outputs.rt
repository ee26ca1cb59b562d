// What a view puts into its target.
ghost use Rattle.std.specs.Prelude.{◌≡◌, not, Ok, Err, OnOk, IfErr};
ghost use Rattle.std.specs.List.{list_any};
ghost use Rattle.chv_ast.specs.declared.refusal.Refusal.{Refusal};
ghost use Rattle.chv_define.specs.Checks.{checked_outputs, checked_select};
ghost use Rattle.chv_query.specs.Views as spec;

use crate::checks::refuse_if;
use chv_ast::{Refusal, Select};
use chv_catalog::{Schema, StatementFault, has_repeat, has_unknown, place};
use chv_query::bind;
use chv_types::{Column, Columns, widens};
use std::alloc::Global;

/// A view's select is bound to its source, and its output columns fill the columns of the target.
pub fn check_select(
    alloc: Global,
    schema: &Schema,
    select: &Select,
    target: &Columns,
) -> Result<(), StatementFault>
    ensures passed { OnOk result (checked_select schema.now.catalog select.now target.now ≡ Ok tt) }
    ensures refused { IfErr result (λ fault. (refusal : Refusal) → fault ≡ StatementFault.Refused refusal → checked_select schema.now.catalog select.now target.now ≡ Err refusal) }
{
    let query = bind(alloc, schema, select)?;
    check_outputs(target.as_slice(), query.columns().as_slice())?;
    Ok(())
}

// The names of output columns differ, each is that of a column of the target, and that column may hold its values.
#[tactic(auto, unfolding(crate::specs::Checks::checked_outputs))]
fn check_outputs(target: &[Column], outputs: &[Column]) -> Result<(), Refusal>
    ensures { result ≡ checked_outputs target.now outputs.now }
{
    refuse_if(has_repeat(outputs), Refusal::NameTaken)?;
    refuse_if(has_unknown(target, outputs), Refusal::UnknownColumn)?;
    refuse_if(has_misfit(target, outputs), Refusal::TypeMismatch)
}

// Whether the values of an output column may not stand in the column of its name.
fn has_misfit(target: &[Column], outputs: &[Column]) -> bool
    ensures { result ≡ list_any (λ column. not (spec.fills target.now column)) outputs.now }
{
    outputs.iter().any(|column| !fills(target, column))
}

// Whether the values of an output column may stand in the column of its name.
fn fills(target: &[Column], column: &Column) -> bool
    ensures { result ≡ spec.fills target.now column.now }
{
    match place(target, column.name.as_slice()) {
        Some(place) => widens(column.kind, target[place].kind),
        None => false,
    }
}
