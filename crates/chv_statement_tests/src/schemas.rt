// Schemas, made of the texts of their statements.
ghost use Rattle.std.specs.Prelude.{◌≡◌, IfSome};
ghost use Rattle.chv_ast.specs.Formed.{FormedTable, FormedView};
ghost use Rattle.chv_query.specs.Accepted.{Accepted, IsAccepted, IsCatalog};

use crate::making::{name_of, statement_of};
use chv_ast::{CreateTable, CreateView, Statement};
use chv_catalog::{Definition, Schema};
use chv_define::{define, define_view};
use std::alloc::Global;

/// What the texts define, one after the other; None where one is refused.
#[tactic(auto, using(crate::proofs::SchemaLemmas::nothing_defined))]
pub fn schema_of(alloc: Global, texts: &[&[u8]]) -> Option<Schema>
    ensures { IfSome result (λ schema. IsCatalog schema.catalog) }
{
    let mut schema = Schema::new(alloc);
    for text in texts {
        if !add(alloc, &mut schema, text) {
            return None;
        }
    }
    Some(schema)
}

// Adds what a text defines; false where it defines nothing.
fn add(alloc: Global, schema: &mut Schema, text: &[u8]) -> bool
    requires schema { IsCatalog schema.old.catalog }
    ensures schema { IsCatalog schema.new.catalog }
{
    match statement_of(alloc, text) {
        Some(Statement::CreateTable(made)) => add_table(alloc, schema, made),
        Some(Statement::CreateView(made)) => add_view(alloc, schema, made),
        _ => false,
    }
}

fn add_table(alloc: Global, schema: &mut Schema, made: CreateTable) -> bool
    requires schema { IsCatalog schema.old.catalog }
    requires formed { FormedTable made }
    ensures schema { IsCatalog schema.new.catalog }
{
    match define(alloc, schema, &made) {
        Ok(table) => put(alloc, schema, Definition::Table(table.def)),
        Err(_) => false,
    }
}

fn add_view(alloc: Global, schema: &mut Schema, made: CreateView) -> bool
    requires schema { IsCatalog schema.old.catalog }
    requires formed { FormedView made }
    ensures schema { IsCatalog schema.new.catalog }
{
    match define_view(alloc, schema, made) {
        Ok(view) => put(alloc, schema, Definition::View(view.def)),
        Err(_) => false,
    }
}

// Puts what is defined behind what stands.
fn put(alloc: Global, schema: &mut Schema, definition: Definition) -> bool
    requires schema { IsCatalog schema.old.catalog }
    requires accepted { (accepted : Accepted) × (accepted.definition ≡ definition) × IsAccepted schema.old.catalog accepted }
    ensures schema { IsCatalog schema.new.catalog }
{
    match schema.reserve_one(alloc, name_of(&definition)) {
        Ok(()) => {
            schema.accept(definition);
            true
        }
        Err(_) => false,
    }
}
