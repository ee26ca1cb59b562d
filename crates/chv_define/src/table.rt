// CREATE TABLE.
ghost use Rattle.std.specs.Prelude.{◌≡◌, Ok, Err, IfOk, IfErr};
ghost use Rattle.chv_ast.specs.declared.refusal.Refusal.{Refusal};
ghost use Rattle.chv_query.specs.Definitions.{defined, engine_of};
ghost use Rattle.chv_print.specs.StatementTexts.{statement_text};

use crate::Defined;
use crate::checks::{check_key, check_names, short_text, window_of};
use crate::kinds::columns_of;
use chv_ast::{CreateTable, EngineWord, Name, Statement};
use chv_catalog::{Schema, StatementFault, TableDef, places_of};
use chv_types::Engine;
use std::alloc::Global;

/// The table that a CREATE TABLE statement defines beside the tables and views that stand, with the statement's text. It is
/// refused by the first check that holds.
pub fn define(
    alloc: Global,
    schema: &Schema,
    made: &CreateTable,
) -> Result<Defined<TableDef>, StatementFault>
    ensures defined { IfOk result (λ table. defined schema.now.catalog made.now ≡ Ok table.def) }
    ensures text { IfOk result (λ table. table.text.items ≡ statement_text (Statement.CreateTable made.now)) }
    ensures refused { IfErr result (λ fault. (refusal : Refusal) → fault ≡ StatementFault.Refused refusal → defined schema.now.catalog made.now ≡ Err refusal) }
{
    check_names(schema, &made.name, &made.columns)?;
    let columns = columns_of(alloc, &made.columns)?;
    check_key(&made.columns, &columns, made.engine, &made.key)?;
    let window = window_of(&made.window)?;
    let text = short_text(alloc, made)?;
    let def = TableDef {
        name: Name::from_slice(alloc, made.name.as_slice())?,
        columns,
        engine: engine_of(made.engine),
        key: places_of(alloc, made.columns.as_slice(), made.key.as_slice())?,
        window,
    };
    Ok(Defined { def, text })
}

// The engine that a word names.
fn engine_of(word: EngineWord) -> Engine
    ensures { result ≡ engine_of word }
{
    match word {
        EngineWord::MergeTree => Engine::MergeTree,
        EngineWord::AggregatingMergeTree => Engine::Aggregating,
    }
}
