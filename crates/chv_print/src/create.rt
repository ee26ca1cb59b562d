// The canonical text of tables and views.
ghost use Rattle.std.specs.Prelude.{◌≡◌, ◌++◌, IfOk, OnOk};
ghost use Rattle.chv_print.specs.StatementTexts as spec;

use crate::list::{Printed, put_enclosed, put_optional};
use crate::name::put_name;
use crate::select::{put_digits, put_select};
use chv_ast::{
    ColumnDef, CreateTable, CreateView, Digits, EngineWord, KindWord, Name, Names, Statement,
};
use std::alloc::{AllocError, Global};

/// The canonical text of a statement that makes a table.
#[tactic(auto, unfolding(crate::specs::StatementTexts::statement_text))]
pub fn table_text(alloc: Global, made: &CreateTable) -> Result<Vec<u8>, AllocError>
    ensures { IfOk result (λ text. text.items ≡ spec.statement_text (Statement.CreateTable made.now)) }
{
    let mut text = Vec::new(alloc);
    put_table(&mut text, made)?;
    Ok(text)
}

/// Puts a statement that makes a table behind `out`.
#[tactic(auto, unfolding(crate::specs::StatementTexts::table_text))]
pub fn put_table(out: &mut Vec<u8>, made: &CreateTable) -> Result<(), AllocError>
    ensures ok { OnOk result (out.new.items ≡ out.old.items ++ spec.table_text made.now) }
{
    out.extend_from_slice(b"CREATE TABLE ")?;
    put_name(out, made.name.as_slice())?;
    out.push(b' ')?;
    put_enclosed(out, made.columns.as_slice())?;
    put_table_rest(out, made.engine, &made.key, &made.window)?;
    Ok(())
}

/// Puts what stands behind the columns of a table behind `out`.
#[tactic(auto, unfolding(crate::specs::StatementTexts::table_rest))]
fn put_table_rest(
    out: &mut Vec<u8>,
    engine: EngineWord,
    key: &Names,
    window: &Option<Digits>,
) -> Result<(), AllocError>
    ensures ok { OnOk result (out.new.items ≡ out.old.items ++ spec.table_rest engine key.now window.now) }
{
    out.extend_from_slice(b" ENGINE = ")?;
    put_engine(out, engine)?;
    out.extend_from_slice(b" ORDER BY ")?;
    put_key(out, key.as_slice())?;
    put_digits(
        out,
        b" SETTINGS non_replicated_deduplication_window = ",
        window,
    )?;
    Ok(())
}

/// The canonical text of a statement that makes a view.
#[tactic(auto, unfolding(crate::specs::StatementTexts::statement_text))]
pub fn view_text(alloc: Global, made: &CreateView) -> Result<Vec<u8>, AllocError>
    ensures { IfOk result (λ text. text.items ≡ spec.statement_text (Statement.CreateView made.now)) }
{
    let mut text = Vec::new(alloc);
    put_view(&mut text, made)?;
    Ok(text)
}

/// Puts a statement that makes a view behind `out`.
#[tactic(auto, unfolding(crate::specs::StatementTexts::view_text))]
pub fn put_view(out: &mut Vec<u8>, made: &CreateView) -> Result<(), AllocError>
    ensures ok { OnOk result (out.new.items ≡ out.old.items ++ spec.view_text made.now) }
{
    out.extend_from_slice(b"CREATE MATERIALIZED VIEW ")?;
    put_name(out, made.name.as_slice())?;
    out.extend_from_slice(b" TO ")?;
    put_name(out, made.target.as_slice())?;
    out.extend_from_slice(b" AS ")?;
    put_select(out, &made.select)?;
    Ok(())
}

impl Printed for ColumnDef {
    ghost text = { spec.column_text };

    fn put(&self, out: &mut Vec<u8>) -> Result<(), AllocError> {
        put_name(out, self.name.as_slice())?;
        out.push(b' ')?;
        put_kind(out, &self.kind)
    }
}

/// Puts the name of a kind behind `out`.
fn put_kind(out: &mut Vec<u8>, kind: &KindWord) -> Result<(), AllocError>
    ensures ok { OnOk result (out.new.items ≡ out.old.items ++ spec.kind_text kind.now) }
{
    match kind {
        KindWord::Plain(name) => put_name(out, name.as_slice()),
        KindWord::Agg { function, arg } => {
            out.extend_from_slice(b"AggregateFunction(")?;
            put_name(out, function.as_slice())?;
            put_optional(out, b", ", arg)?;
            out.push(b')')?;
            Ok(())
        }
    }
}

/// Puts an engine behind `out`.
fn put_engine(out: &mut Vec<u8>, engine: EngineWord) -> Result<(), AllocError>
    ensures ok { OnOk result (out.new.items ≡ out.old.items ++ spec.engine_text engine) }
{
    out.extend_from_slice(match engine {
        EngineWord::MergeTree => b"MergeTree".as_slice(),
        EngineWord::AggregatingMergeTree => b"AggregatingMergeTree",
    })
}

/// Puts a sorting key behind `out`.
fn put_key(out: &mut Vec<u8>, key: &[Name]) -> Result<(), AllocError>
    ensures ok { OnOk result (out.new.items ≡ out.old.items ++ spec.key_text key.now) }
{
    if key.is_empty() {
        out.extend_from_slice(b"tuple()")
    } else {
        put_enclosed(out, key)
    }
}
