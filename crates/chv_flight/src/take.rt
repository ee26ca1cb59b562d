// How a statement is taken.
ghost use Rattle.std.specs.Prelude.{◌≡◌, Some};
ghost use Rattle.std.specs.List.{All};
ghost use Rattle.chv_ast.specs.Formed.{WellFormed};
ghost use Rattle.chv_parse.specs.StatementTexts.{statement_in};
ghost use Rattle.chv_store.specs.Stores.{IsUsable};
ghost use Rattle.chv_flight.specs.Flights.{left_in};
ghost use Rattle.chv_flight.specs.Rooms.{HasRooms};
ghost use Rattle.chv_flight.specs.Takes.{HasMade, Takes, told_of};

use crate::answer::answer_statement;
use crate::client::Client;
use crate::fault::RunFault;
use crate::planning::take_insert;
use crate::say::refuse;
use chv_ast::{Refusal, Statement};
use chv_plan::Deliveries;
use chv_site::Site;
use chv_store::{Store, read};
use std::alloc::Global;

/// What came of a statement.
#[derive(Drop)]
pub struct Taken {
    /// Whether it was refused.
    pub(crate) refused: bool,
    /// The deliveries of an INSERT that is planned.
    pub(crate) plan: Deliveries,
}

/// Takes what a client asks for with a text: an INSERT is planned, with room beside what clients have left; another statement
/// is done and answered. After an `Err` the store is not used again.
pub fn take<W: Site>(
    alloc: Global,
    site: &mut W,
    store: &mut Store,
    clients: &[Client],
    client: u8,
    text: &[u8],
) -> Result<Taken, RunFault>
    requires usable { IsUsable W.tells store.old (W.outside site.old) }
    requires made { All HasMade clients.now }
    requires rooms { HasRooms (left_in clients.now) store.old }
    ensures { Takes W.tells client clients.now (statement_in text.now) result store.old store.new (W.outside site.old) (W.outside site.new) }
{
    match read(alloc, text)? {
        Some(statement) => take_statement(alloc, site, store, clients, client, statement),
        None => told(alloc, refuse(site, client, Refusal::Syntax)),
    }
}

// Takes a client's statement.
fn take_statement<W: Site>(
    alloc: Global,
    site: &mut W,
    store: &mut Store,
    clients: &[Client],
    client: u8,
    statement: Statement,
) -> Result<Taken, RunFault>
    requires usable { IsUsable W.tells store.old (W.outside site.old) }
    requires formed { WellFormed statement }
    requires made { All HasMade clients.now }
    requires rooms { HasRooms (left_in clients.now) store.old }
    ensures { Takes W.tells client clients.now (Some statement) result store.old store.new (W.outside site.old) (W.outside site.new) }
{
    match statement {
        Statement::Insert(brought) => take_insert(alloc, site, store, clients, client, &brought),
        other => told(alloc, answer_statement(alloc, site, store, client, other)),
    }
}

/// What came of a statement that was answered.
pub fn told(alloc: Global, answer: Result<bool, RunFault>) -> Result<Taken, RunFault>
    ensures { result ≡ told_of answer }
{
    match answer {
        Ok(refused) => Ok(Taken {
            refused,
            plan: Deliveries::new(alloc),
        }),
        Err(fault) => Err(fault),
    }
}
