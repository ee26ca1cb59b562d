// How a statement is answered that brings nothing.
ghost use Rattle.std.specs.Prelude.{◌≢◌, Some, OnOk};
ghost use Rattle.chv_ast.specs.Formed.{WellFormed};
ghost use Rattle.chv_store.specs.Stores.{IsUsable};
ghost use Rattle.chv_flight.specs.Answers.{Answers, statement_wish};
ghost use Rattle.chv_flight.specs.Takes.{KeepsPlans};

use crate::create::{create, create_view};
use crate::fault::RunFault;
use crate::parts::show_parts;
use crate::say::refuse;
use crate::select::select;
use chv_ast::{CreateView, Insert, Refusal, Statement};
use chv_site::Site;
use chv_store::Store;
use std::alloc::Global;

/// Answers a client's statement that is no INSERT; true where it was refused. A view takes over its select. After an `Err` the
/// store is not used again.
pub fn answer_statement<W: Site>(
    alloc: Global,
    site: &mut W,
    store: &mut Store,
    client: u8,
    statement: Statement,
) -> Result<bool, RunFault>
    requires usable { IsUsable W.tells store.old (W.outside site.old) }
    requires formed { WellFormed statement }
    requires alone { (brought : Insert) → statement ≢ Statement.Insert brought }
    ensures answers { Answers W.tells client (statement_wish (Some statement)) result store.old store.new (W.outside site.old) (W.outside site.new) }
    ensures keeps { OnOk result (KeepsPlans store.old store.new) }
{
    match statement {
        Statement::CreateView(made) => create_view(alloc, site, store, client, made),
        other => answer_other(alloc, site, store, client, &other),
    }
}

// Answers a client's statement that makes no view and brings nothing; true where it was refused.
fn answer_other<W: Site>(
    alloc: Global,
    site: &mut W,
    store: &mut Store,
    client: u8,
    statement: &Statement,
) -> Result<bool, RunFault>
    requires usable { IsUsable W.tells store.old (W.outside site.old) }
    requires formed { WellFormed statement.now }
    requires alone { (brought : Insert) → statement.now ≢ Statement.Insert brought }
    requires other { (made : CreateView) → statement.now ≢ Statement.CreateView made }
    ensures answers { Answers W.tells client (statement_wish (Some statement.now)) result store.old store.new (W.outside site.old) (W.outside site.new) }
    ensures keeps { OnOk result (KeepsPlans store.old store.new) }
{
    match statement {
        Statement::CreateTable(made) => create(alloc, site, store, client, made),
        Statement::Query(asked) => select(alloc, site, store, client, asked),
        Statement::ShowParts(asked) => {
            show_parts(alloc, site, store, client, asked.table.as_slice())
        }
        _ => refuse(site, client, Refusal::NotBuilt),
    }
}
