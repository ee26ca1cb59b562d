// CREATE TABLE and CREATE MATERIALIZED VIEW.
ghost use Rattle.std.specs.Prelude.{◌≡◌, Ok, Err, OnOk};
ghost use Rattle.chv_print.specs.StatementTexts.{statement_text};
ghost use Rattle.chv_ast.specs.Formed.{FormedTable, FormedView};
ghost use Rattle.chv_catalog.specs.declared.definition.Definition.TheVariants as definition;
ghost use Rattle.chv_store.specs.Openings.{MakesDefinition, TextMakes};
ghost use Rattle.chv_store.specs.Stores.{IsUsable};
ghost use Rattle.chv_flight.specs.Answers.{Answers, create_wish, view_wish};
ghost use Rattle.chv_flight.specs.Takes.{KeepsPlans};

use crate::fault::RunFault;
use crate::say::{refuse, reply};
use chv_ast::{CreateTable, CreateView, Statement};
use chv_catalog::{StatementFault, TableDef, ViewDef};
use chv_define::{Defined, define, define_view};
use chv_site::Site;
use chv_store::Store;
use chv_text::line_ok;
use std::alloc::Global;

/// Answers a CREATE TABLE statement; true where it was refused. After an `Err` the store is not used again.
pub fn create<W: Site>(
    alloc: Global,
    site: &mut W,
    store: &mut Store,
    client: u8,
    made: &CreateTable,
) -> Result<bool, RunFault>
    requires usable { IsUsable W.tells store.old (W.outside site.old) }
    requires formed { FormedTable made.now }
    ensures answers { Answers W.tells client (create_wish made.now) result store.old store.new (W.outside site.old) (W.outside site.new) }
    ensures keeps { OnOk result (KeepsPlans store.old store.new) }
{
    match define(alloc, store.schema(), made) {
        Ok(table) => make(alloc, site, store, client, table),
        Err(StatementFault::Refused(refusal)) => refuse(site, client, refusal),
        Err(StatementFault::NoMemory) => Err(RunFault::NoMemory),
    }
}

// Makes a table, and says the reply.
fn make<W: Site>(
    alloc: Global,
    site: &mut W,
    store: &mut Store,
    client: u8,
    table: Defined<TableDef>,
) -> Result<bool, RunFault>
    requires usable { IsUsable W.tells store.old (W.outside site.old) }
    requires makes { TextMakes store.old.schema.catalog table.text.items (definition.Table table.def) }
    ensures answers { (made : CreateTable) → MakesDefinition store.old.schema.catalog (Statement.CreateTable made) (definition.Table table.def) → table.text.items ≡ statement_text (Statement.CreateTable made)
        → Answers W.tells client (create_wish made) result store.old store.new (W.outside site.old) (W.outside site.new) }
    ensures keeps { OnOk result (KeepsPlans store.old store.new) }
{
    let Defined { def, text } = table;
    store.create(alloc, site, text.as_slice(), def)?;
    reply(site, line_ok(client).as_slice(), false)
}

/// Answers a CREATE MATERIALIZED VIEW statement; true where it was refused. After an `Err` the store is not used again.
pub fn create_view<W: Site>(
    alloc: Global,
    site: &mut W,
    store: &mut Store,
    client: u8,
    made: CreateView,
) -> Result<bool, RunFault>
    requires usable { IsUsable W.tells store.old (W.outside site.old) }
    requires formed { FormedView made }
    ensures answers { Answers W.tells client (view_wish made) result store.old store.new (W.outside site.old) (W.outside site.new) }
    ensures keeps { OnOk result (KeepsPlans store.old store.new) }
{
    match define_view(alloc, store.schema(), made) {
        Ok(view) => make_view(alloc, site, store, client, view),
        Err(StatementFault::Refused(refusal)) => refuse(site, client, refusal),
        Err(StatementFault::NoMemory) => Err(RunFault::NoMemory),
    }
}

// Makes a view, and says the reply.
fn make_view<W: Site>(
    alloc: Global,
    site: &mut W,
    store: &mut Store,
    client: u8,
    view: Defined<ViewDef>,
) -> Result<bool, RunFault>
    requires usable { IsUsable W.tells store.old (W.outside site.old) }
    requires makes { TextMakes store.old.schema.catalog view.text.items (definition.View view.def) }
    ensures keeps { OnOk result (KeepsPlans store.old store.new) }
    ensures answers { (made : CreateView) → MakesDefinition store.old.schema.catalog (Statement.CreateView made) (definition.View view.def) → view.text.items ≡ statement_text (Statement.CreateView made)
        → Answers W.tells client (view_wish made) result store.old store.new (W.outside site.old) (W.outside site.new) }
{
    let Defined { def, text } = view;
    store.create_view(alloc, site, text.as_slice(), def)?;
    reply(site, line_ok(client).as_slice(), false)
}
