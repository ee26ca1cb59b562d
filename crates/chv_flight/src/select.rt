// SELECT.
ghost use Rattle.std.specs.Prelude.{◌≡◌, List, Ok, IfOk};
ghost use Rattle.chv_history.specs.Tasks.{TellRows};
ghost use Rattle.chv_history.specs.Told.{shown_text};
ghost use Rattle.chv_query.specs.Queries.{Asked};
ghost use Rattle.chv_query.specs.Shown.{kinds_shown, shown_of};
ghost use Rattle.chv_select.specs.Answers.{IsPrepared};
ghost use Rattle.chv_store.specs.Stores.{IsUsable};
ghost use Rattle.chv_types.specs.declared.value.Value.{Value as SomeValue};
ghost use Rattle.chv_flight.specs.Answers.{Answers, IsOfStore, query_wish};

use crate::fault::RunFault;
use crate::say::{refuse, reply};
use chv_ast::Select;
use chv_catalog::StatementFault;
use chv_select::{Answered, Prepared, answer, prepare};
use chv_site::Site;
use chv_store::Store;
use chv_text::{line_rows, rows_text};
use chv_types::Bytes;
use std::alloc::{AllocError, Global};

/// Answers a SELECT; true where it was refused. A SELECT that a check refuses reads no part.
pub fn select<W: Site>(
    alloc: Global,
    site: &mut W,
    store: &Store,
    client: u8,
    select: &Select,
) -> Result<bool, RunFault>
    requires usable { IsUsable W.tells store.now (W.outside site.old) }
    ensures { Answers W.tells client (query_wish select.now) result store.now store.now (W.outside site.old) (W.outside site.new) }
{
    match prepare(alloc, store.schema(), select) {
        Ok(prepared) => show(alloc, site, store, client, &prepared),
        Err(StatementFault::Refused(refusal)) => refuse(site, client, refusal),
        Err(StatementFault::NoMemory) => Err(RunFault::NoMemory),
    }
}

// Says the rows of a query to a client, and how many they are; or that a divisor is zero.
fn show<W: Site>(
    alloc: Global,
    site: &mut W,
    store: &Store,
    client: u8,
    prepared: &Prepared,
) -> Result<bool, RunFault>
    requires usable { IsUsable W.tells store.now (W.outside site.old) }
    requires prepared { (query : Asked) × IsPrepared prepared.now query × IsOfStore store.now query }
    ensures { (query : Asked) → IsPrepared prepared.now query → IsOfStore store.now query
        → Answers W.tells client (λ catalog entries. Ok (TellRows query)) result store.now store.now (W.outside site.old) (W.outside site.new) }
{
    let rows = store.rows(alloc, site, prepared.table())?;
    match answer(alloc, prepared, rows) {
        Ok(answered) => {
            let text = shown_text(alloc, client, &answered)?;
            reply(site, text.as_slice(), false)
        }
        Err(StatementFault::Refused(refusal)) => refuse(site, client, refusal),
        Err(StatementFault::NoMemory) => Err(RunFault::NoMemory),
    }
}

// What is said to a client for an answer: a line for each row, and the line that ends the reply.
fn shown_text(alloc: Global, client: u8, answered: &Answered) -> Result<Bytes, AllocError>
    ensures { IfOk result (λ text. (query : Asked) (rows : List (List SomeValue)) → answered.now.kinds ≡ kinds_shown query → answered.now.rows ≡ shown_of query rows
        → text ≡ shown_text client query rows) }
{
    let mut text = rows_text(alloc, &answered.kinds, &answered.rows)?;
    let end = line_rows(client, answered.rows.len() as u64);
    text.append(Bytes::from_slice(alloc, end.as_slice())?)?;
    Ok(text)
}
