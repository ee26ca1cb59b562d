// Statements, tables and views, made from texts.
ghost use Rattle.std.specs.Prelude.{◌≡◌, IfSome};
ghost use Rattle.chv_ast.specs.Formed.{WellFormed};
ghost use Rattle.chv_catalog.specs.Schemas.{definition_name};

use chv_ast::{CreateTable, CreateView, Statement};
use chv_catalog::{Definition, Schema, StatementFault};
use chv_define::{define, define_view};
use chv_lex::tokens;
use chv_parse::statement;
use std::alloc::Global;

/// The statement that a text writes.
#[tactic(auto, using(crate::proofs::WrittenLemmas::read_is_formed))]
pub fn statement_of(alloc: Global, text: &[u8]) -> Option<Statement>
    ensures { IfSome result WellFormed }
{
    match tokens(alloc, text) {
        Ok(tokens) => match statement(alloc, text, &tokens) {
            Ok(statement) => Some(statement),
            Err(_) => None,
        },
        Err(_) => None,
    }
}

/// What a text defines beside the tables and views that stand; None where it is no CREATE statement.
pub fn defined(
    alloc: Global,
    schema: &Schema,
    text: &[u8],
) -> Option<Result<Definition, StatementFault>> {
    match statement_of(alloc, text) {
        Some(Statement::CreateTable(made)) => Some(table_of(alloc, schema, &made)),
        Some(Statement::CreateView(made)) => Some(view_of(alloc, schema, made)),
        _ => None,
    }
}

fn table_of(
    alloc: Global,
    schema: &Schema,
    made: &CreateTable,
) -> Result<Definition, StatementFault> {
    Ok(Definition::Table(define(alloc, schema, made)?.def))
}

fn view_of(alloc: Global, schema: &Schema, made: CreateView) -> Result<Definition, StatementFault> {
    Ok(Definition::View(define_view(alloc, schema, made)?.def))
}

/// The name of what is defined.
pub fn name_of(definition: &Definition) -> &[u8]
    ensures { result.now ≡ definition_name definition.now }
{
    match definition {
        Definition::Table(def) => def.name.as_slice(),
        Definition::View(def) => def.name.as_slice(),
    }
}

/// Takes what is defined, unless its name is taken; false where it is not taken.
pub fn accept(alloc: Global, schema: &mut Schema, definition: Definition) -> bool {
    let name = name_of(&definition);
    if schema.taken(name) || schema.definitions() >= 256 {
        return false;
    }
    if schema.reserve_one(alloc, name).is_err() {
        return false;
    }
    schema.accept(definition);
    true
}

/// Makes what a text defines beside what stands; false where it defines nothing.
pub fn make(alloc: Global, schema: &mut Schema, text: &[u8]) -> bool {
    match defined(alloc, schema, text) {
        Some(Ok(definition)) => accept(alloc, schema, definition),
        _ => false,
    }
}
