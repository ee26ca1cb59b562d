// The next delivery of an INSERT that is under way.
ghost use Rattle.std.specs.Prelude.{◌-◌, ◌<◌, ◌≤◌, length, false};
ghost use Rattle.chv_store.specs.Stores.{IsUsable};
ghost use Rattle.chv_text.specs.Replies.{insert_line};
ghost use Rattle.chv_flight.specs.Answers.{Replies};
ghost use Rattle.chv_flight.specs.ClientTurns.{Advances, IsPlanned};
ghost use Rattle.chv_flight.specs.Flights.{left_of};
ghost use Rattle.chv_flight.specs.Rooms.{HasRooms};

use crate::client::Client;
use crate::fault::RunFault;
use crate::insert::deliver;
use crate::say::reply;
use chv_site::Site;
use chv_store::Store;
use chv_text::line_insert;
use std::alloc::Global;

/// Makes the next delivery of a client; behind the last one it says the reply. It takes no memory, and reads no part.
/// After an `Err` the store is not used again.
pub fn deliver_next<W: Site>(
    alloc: Global,
    site: &mut W,
    store: &mut Store,
    number: u8,
    client: &mut Client,
) -> Result<(), RunFault>
    requires usable { IsUsable W.tells store.old (W.outside site.old) }
    requires left { client.old.made < length client.old.plan }
    requires written { client.old.written ≤ client.old.made }
    requires planned { IsPlanned store.old client.old }
    requires rooms { HasRooms (left_of client.old) store.old }
    ensures { Advances W.tells number result client.old client.new store.old store.new (W.outside site.old) (W.outside site.new) }
{
    let made = client.made;
    let written = deliver(site, store, &client.plan.as_slice()[made])?;
    client.made += 1;
    client.written += written;
    if client.has_delivery() {
        return Ok(());
    }
    acknowledge(site, number, client)?;
    client.end(alloc);
    Ok(())
}

// Says the reply to an INSERT whose deliveries are made.
fn acknowledge<W: Site>(site: &mut W, number: u8, client: &Client) -> Result<bool, RunFault>
    requires written { client.now.written ≤ client.now.made }
    ensures { Replies W.tells (insert_line number client.now.written (client.now.made - client.now.written)) false result
        (W.outside site.old) (W.outside site.new) }
{
    let line = line_insert(number, client.written, client.made as u64 - client.written);
    reply(site, line.as_slice(), false)
}
