// Tables and views, read back from the canonical texts that create them.
ghost use Rattle.std.specs.Prelude.{◌≡◌, Some, IfOk, IfNone, IfSome};
ghost use Rattle.chv_ast.specs.declared.statement.Statement.{Statement};
ghost use Rattle.chv_parse.specs.StatementTexts.{statement_in};
ghost use Rattle.chv_store.specs.Openings.{TextMakes, TextMakesNone};

use crate::reading::read;
use chv_ast::{CreateTable, CreateView, Statement};
use chv_catalog::{Definition, Schema, StatementFault};
use chv_define::{define, define_view};
use std::alloc::{AllocError, Global};

/// What a canonical text makes beside the tables and views that stand; None for each other text, be it other by a single
/// space, and for that of a statement that is refused.
pub fn read_create(
    alloc: Global,
    schema: &Schema,
    text: &[u8],
) -> Result<Option<Definition>, AllocError>
    ensures none { IfOk result (λ read. IfNone read (TextMakesNone schema.now.catalog text.now)) }
    ensures some { IfOk result (λ read. IfSome read (λ definition. TextMakes schema.now.catalog text.now definition)) }
{
    match read(alloc, text)? {
        Some(statement) => made_by(alloc, schema, statement, text),
        None => Ok(None),
    }
}

// What a statement makes, where it is a CREATE statement that a catalog may have with this text.
fn made_by(
    alloc: Global,
    schema: &Schema,
    statement: Statement,
    text: &[u8],
) -> Result<Option<Definition>, AllocError>
    requires read { statement_in text.now ≡ Some statement }
    ensures none { IfOk result (λ read. IfNone read (TextMakesNone schema.now.catalog text.now)) }
    ensures some { IfOk result (λ read. IfSome read (λ definition. TextMakes schema.now.catalog text.now definition)) }
{
    match statement {
        Statement::CreateTable(made) => table_of(alloc, schema, &made, text),
        Statement::CreateView(made) => view_of(alloc, schema, made, text),
        _neither => Ok(None),
    }
}

// The table that a statement makes, where the text that it was read from is its canonical text.
fn table_of(
    alloc: Global,
    schema: &Schema,
    made: &CreateTable,
    text: &[u8],
) -> Result<Option<Definition>, AllocError>
    requires read { statement_in text.now ≡ Some (Statement.CreateTable made.now) }
    ensures none { IfOk result (λ read. IfNone read (TextMakesNone schema.now.catalog text.now)) }
    ensures some { IfOk result (λ read. IfSome read (λ definition. TextMakes schema.now.catalog text.now definition)) }
{
    match define(alloc, schema, made) {
        Ok(table) => {
            if table.text.as_slice() != text {
                return Ok(None);
            }
            Ok(Some(Definition::Table(table.def)))
        }
        Err(StatementFault::Refused(_)) => Ok(None),
        Err(StatementFault::NoMemory) => Err(AllocError),
    }
}

// The view that a statement makes, where the text that it was read from is its canonical text.
fn view_of(
    alloc: Global,
    schema: &Schema,
    made: CreateView,
    text: &[u8],
) -> Result<Option<Definition>, AllocError>
    requires read { statement_in text.now ≡ Some (Statement.CreateView made) }
    ensures none { IfOk result (λ read. IfNone read (TextMakesNone schema.now.catalog text.now)) }
    ensures some { IfOk result (λ read. IfSome read (λ definition. TextMakes schema.now.catalog text.now definition)) }
{
    match define_view(alloc, schema, made) {
        Ok(view) => {
            if view.text.as_slice() != text {
                return Ok(None);
            }
            Ok(Some(Definition::View(view.def)))
        }
        Err(StatementFault::Refused(_)) => Ok(None),
        Err(StatementFault::NoMemory) => Err(AllocError),
    }
}
