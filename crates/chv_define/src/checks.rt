// The checks of a definition, in order.
ghost use Rattle.std.specs.Prelude.{◌≡◌, ◌≤◌, length, is_some, Ok, Err, OnOk, IfOk, IfErr};
ghost use Rattle.chv_ast.specs.declared.refusal.Refusal.{Refusal};
ghost use Rattle.chv_print.specs.StatementTexts.{statement_text};
ghost use Rattle.chv_define.specs.Checks.{checked_free, checked_key, checked_names, checked_text};
ghost use Rattle.chv_query.specs.Definitions as spec;
ghost use Rattle.chv_types.specs.Names.{place_of};
ghost use Rattle.chv_types.specs.Steps.{refuse_if};

use chv_ast::{
    ColumnDefs, CreateTable, CreateView, Digits, EngineWord, Name, Names, Refusal, Statement,
};
use chv_catalog::{
    Schema, StatementFault, has_repeat, has_unknown, is_state, number_within, place,
};
use chv_print::{table_text, view_text};
use chv_types::{Column, Columns};
use std::alloc::Global;

/// The most tables and views that stand.
const MAX_DEFINITIONS: u32 = 256;
/// The most columns of a table.
const MAX_COLUMNS: usize = 64;
/// The most ids that a table keeps.
const MAX_WINDOW: u64 = 100_000;
/// The most bytes of a definition's canonical text.
const MAX_TEXT: usize = 1_048_576;

/// A check that refuses where something is bad.
pub fn refuse_if(bad: bool, refusal: Refusal) -> Result<(), Refusal>
    ensures { result ≡ refuse_if bad refusal (Ok tt) }
{
    if bad { Err(refusal) } else { Ok(()) }
}

/// The name is free, and there is room for a definition.
#[tactic(auto, unfolding(crate::specs::Checks::checked_free))]
pub fn check_free(schema: &Schema, name: &Name) -> Result<(), Refusal>
    ensures { result ≡ checked_free schema.now.catalog name.now }
{
    refuse_if(schema.taken(name.as_slice()), Refusal::NameTaken)?;
    refuse_if(
        schema.definitions() >= MAX_DEFINITIONS,
        Refusal::LimitPassed,
    )
}

/// The name is free, there is room for a definition, and there are 64 columns at most, whose names differ.
#[tactic(auto, unfolding(crate::specs::Checks::checked_names))]
pub fn check_names(schema: &Schema, name: &Name, columns: &ColumnDefs) -> Result<(), Refusal>
    ensures checked { result ≡ checked_names schema.now.catalog name.now columns.now }
    ensures few { IfOk result (λ _. length columns.now ≤ 64) }
{
    check_free(schema, name)?;
    refuse_if(columns.len() > MAX_COLUMNS, Refusal::LimitPassed)?;
    refuse_if(has_repeat(columns.as_slice()), Refusal::NameTaken)
}

/// The names of the key are those of columns and differ, and none is that of a state; where the engine aggregates, each
/// column is in the key or a state.
#[tactic(auto, unfolding(crate::specs::Checks::checked_key))]
pub fn check_key(
    columns: &ColumnDefs,
    made: &Columns,
    engine: EngineWord,
    key: &Names,
) -> Result<(), Refusal>
    ensures { result ≡ checked_key columns.now made.now engine key.now }
{
    let (key, made) = (key.as_slice(), made.as_slice());
    refuse_if(has_unknown(columns.as_slice(), key), Refusal::UnknownColumn)?;
    refuse_if(has_repeat(key), Refusal::NameTaken)?;
    refuse_if(has_state(key, made), Refusal::TypeMismatch)?;
    refuse_if(
        engine == EngineWord::AggregatingMergeTree && has_loose(key, made),
        Refusal::ColumnNotMergeable,
    )
}

/// The canonical text of a table, which is 1,048,576 bytes long at most.
#[tactic(auto, unfolding(crate::specs::Checks::checked_text))]
pub fn short_text(alloc: Global, made: &CreateTable) -> Result<Vec<u8>, StatementFault>
    ensures text { IfOk result (λ text. text.items ≡ statement_text (Statement.CreateTable made.now)) }
    ensures short { OnOk result (checked_text (Statement.CreateTable made.now) ≡ Ok tt) }
    ensures long { IfErr result (λ fault. (refusal : Refusal) → fault ≡ StatementFault.Refused refusal → checked_text (Statement.CreateTable made.now) ≡ Err refusal) }
{
    let text = table_text(alloc, made)?;
    if text.len() > MAX_TEXT {
        return Err(StatementFault::Refused(Refusal::LimitPassed));
    }
    Ok(text)
}

/// The canonical text of a view, which is 1,048,576 bytes long at most.
#[tactic(auto, unfolding(crate::specs::Checks::checked_text))]
pub fn short_view_text(alloc: Global, made: &CreateView) -> Result<Vec<u8>, StatementFault>
    ensures text { IfOk result (λ text. text.items ≡ statement_text (Statement.CreateView made.now)) }
    ensures short { OnOk result (checked_text (Statement.CreateView made.now) ≡ Ok tt) }
    ensures long { IfErr result (λ fault. (refusal : Refusal) → fault ≡ StatementFault.Refused refusal → checked_text (Statement.CreateView made.now) ≡ Err refusal) }
{
    let text = view_text(alloc, made)?;
    if text.len() > MAX_TEXT {
        return Err(StatementFault::Refused(Refusal::LimitPassed));
    }
    Ok(text)
}

/// How many ids are kept, where a number is written: 100,000 at most.
pub fn window_of(window: &Option<Digits>) -> Result<u32, Refusal>
    ensures { result ≡ spec.window_of window.now }
{
    match window {
        Some(digits) => Ok(number_within(0, MAX_WINDOW, digits.as_slice())? as u32),
        None => Ok(0),
    }
}

// Whether a column of the key is a state.
fn has_state(key: &[Name], made: &[Column]) -> bool
    ensures { result ≡ spec.has_state key.now made.now }
{
    made.iter()
        .any(|column| is_in(key, column) && is_state(column.kind))
}

// Whether a column is neither in the key nor a state.
fn has_loose(key: &[Name], made: &[Column]) -> bool
    ensures { result ≡ spec.has_loose key.now made.now }
{
    made.iter()
        .any(|column| !is_in(key, column) && !is_state(column.kind))
}

// Whether a column is in the key.
fn is_in(key: &[Name], column: &Column) -> bool
    ensures { result ≡ is_some (place_of column.now.name key.now) }
{
    place(key, column.name.as_slice()).is_some()
}
