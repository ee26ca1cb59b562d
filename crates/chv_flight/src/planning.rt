// How an INSERT is planned.
ghost use Rattle.std.specs.Prelude.{◌≡◌, List, Option, Some};
ghost use Rattle.std.specs.List.{All};
ghost use Rattle.chv_ast.specs.Formed.{FormedInsert};
ghost use Rattle.chv_plan.specs.Deliveries.{DeliversAll};
ghost use Rattle.chv_query.specs.Plans.{Delivery as Planned};
ghost use Rattle.chv_store.specs.Stores.{IsUsable};
ghost use Rattle.chv_flight.specs.Flights.{left_in};
ghost use Rattle.chv_flight.specs.Rooms.{HasRooms};
ghost use Rattle.chv_flight.specs.Takes.{AsksFor, HasMade, Takes};

use crate::client::Client;
use crate::fault::RunFault;
use crate::room::reserve_beside;
use crate::say::refuse;
use crate::take::{Taken, told};
use chv_ast::{Insert, Refusal, Statement};
use chv_catalog::StatementFault;
use chv_plan::{Deliveries, plan_insert};
use chv_site::Site;
use chv_store::Store;
use std::alloc::Global;

/// Plans an INSERT, with room for its deliveries beside what clients have left; or refuses it. All memory that its deliveries
/// need is taken here. After an `Err` the store is not used again.
pub fn take_insert<W: Site>(
    alloc: Global,
    site: &mut W,
    store: &mut Store,
    clients: &[Client],
    client: u8,
    brought: &Insert,
) -> Result<Taken, RunFault>
    requires usable { IsUsable W.tells store.old (W.outside site.old) }
    requires formed { FormedInsert brought.now }
    requires made { All HasMade clients.now }
    requires rooms { HasRooms (left_in clients.now) store.old }
    ensures { Takes W.tells client clients.now (Some (Statement.Insert brought.now)) result store.old store.new (W.outside site.old) (W.outside site.new) }
{
    if brought.settings.later {
        return told(alloc, refuse(site, client, Refusal::NotBuilt));
    }
    match plan_insert(alloc, store.schema(), brought) {
        Ok(plan) => make_room(alloc, site, store, clients, client, plan.deliveries),
        Err(StatementFault::Refused(refusal)) => told(alloc, refuse(site, client, refusal)),
        Err(StatementFault::NoMemory) => Err(RunFault::NoMemory),
    }
}

// Makes room for the deliveries of an INSERT beside what clients have left; or refuses it where there is none.
fn make_room<W: Site>(
    alloc: Global,
    site: &mut W,
    store: &mut Store,
    clients: &[Client],
    client: u8,
    plan: Deliveries,
) -> Result<Taken, RunFault>
    requires usable { IsUsable W.tells store.old (W.outside site.old) }
    requires planned { (all : List Planned) × DeliversAll store.old.schema.catalog plan all }
    requires made { All HasMade clients.now }
    requires rooms { HasRooms (left_in clients.now) store.old }
    ensures { (all : List Planned) (asked : Option Statement) → DeliversAll store.old.schema.catalog plan all → AsksFor store.old.schema.catalog asked all
        → Takes W.tells client clients.now asked result store.old store.new (W.outside site.old) (W.outside site.new) }
{
    if !reserve_beside(alloc, store, clients, plan.as_slice())? {
        return told(alloc, refuse(site, client, Refusal::LimitPassed));
    }
    Ok(Taken {
        refused: false,
        plan,
    })
}
