// Room for what an INSERT brings.
ghost use Rattle.std.specs.Prelude.{◌≡◌, ◌≤◌, ◌<◌, ◌+◌, ◌++◌, ℕ, length, get_or, true, false, IfOk};
ghost use Rattle.std.specs.List.{All};
ghost use Rattle.chv_commit.specs.Replays.{MAX_ENTRIES};
ghost use Rattle.chv_store.specs.Calls.{HoldsSame};
ghost use Rattle.chv_store.specs.Stores.{HasRoom, IsTable, IsWithin, state_of};
ghost use Rattle.chv_flight.specs.Flights.{left_in};
ghost use Rattle.chv_flight.specs.Rooms.{HasRooms, IsNumbered, LacksRoom, deliveries_held};
ghost use Rattle.chv_flight.specs.Takes.{HasMade};

use crate::client::Client;
use chv_plan::Delivery;
use chv_store::Store;
use std::alloc::{AllocError, Global};

/// The number of the first table.
const FIRST_TABLE: u32 = 1;

/// The most deliveries to a table for which memory is asked.
const MOST_AT_ONCE: u64 = 4_294_967_296;

/// Makes room in memory for the deliveries that clients have left and those of a plan, in each table to which one of the plan
/// goes; false where such a table would have more entries with them than a table may.
pub fn reserve_beside(
    alloc: Global,
    store: &mut Store,
    clients: &[Client],
    plan: &[Delivery],
) -> Result<bool, AllocError>
    requires within { IsWithin store.old }
    requires tables { All (IsNumbered (length store.old.schema.catalog.tables)) plan.now }
    requires made { All HasMade clients.now }
    requires rooms { HasRooms (left_in clients.now) store.old }
    requires few { (table : ℕ) → deliveries_held table (left_in clients.now) ≤ MAX_ENTRIES }
    ensures room { IfOk result (λ fits. fits ≡ true → HasRooms (left_in clients.now ++ plan.now) store.new) }
    ensures lacks { IfOk result (λ fits. fits ≡ false → LacksRoom (left_in clients.now) plan.now store.old) }
    // Room that a table has stays.
    ensures kept { (other room : ℕ) → HasRoom room store.old other → HasRoom room store.new other }
    ensures same { HoldsSame store.old store.new }
{
    let tables = store.schema().tables();
    let counts = counts_of(alloc, tables, plan)?;
    for table in FIRST_TABLE..tables + 1 {
        if !reserve_for(store, clients, table, counts[table as usize - 1])? {
            return Ok(false);
        }
    }
    Ok(true)
}

// Makes room for so many deliveries to the table of a number, where there are any, and for those that clients have left; false
// where it would have more entries than a table may.
fn reserve_for(
    store: &mut Store,
    clients: &[Client],
    table: u32,
    count: u64,
) -> Result<bool, AllocError>
    requires within { IsWithin store.old }
    requires table { IsTable store.old table }
    requires made { All HasMade clients.now }
    requires few { deliveries_held table (left_in clients.now) ≤ MAX_ENTRIES }
    ensures room { IfOk result (λ fits. fits ≡ true → 1 ≤ count → HasRoom (deliveries_held table (left_in clients.now) + count) store.new table) }
    ensures lacks { IfOk result (λ fits. fits ≡ false → (1 ≤ count) × (MAX_ENTRIES < (state_of store.old table).entries + deliveries_held table (left_in clients.now) + count)) }
    ensures kept { (other room : ℕ) → HasRoom room store.old other → HasRoom room store.new other }
    ensures same { HoldsSame store.old store.new }
{
    if count == 0 {
        return Ok(true);
    }
    let left = left_to(clients, table);
    if count > MOST_AT_ONCE || left > MOST_AT_ONCE - count {
        return Err(AllocError);
    }
    store.reserve(table, left + count)
}

// How many deliveries clients have left to the table of a number.
fn left_to(clients: &[Client], table: u32) -> u64
    requires made { All HasMade clients.now }
    requires few { deliveries_held table (left_in clients.now) ≤ MAX_ENTRIES }
    ensures { result ≡ deliveries_held table (left_in clients.now) }
{
    let mut count = 0;
    for client in clients {
        count += held_to(&client.plan.as_slice()[client.made..], table);
    }
    count
}

// How many deliveries go to the table of a number.
fn held_to(plan: &[Delivery], table: u32) -> u64
    ensures { result ≡ deliveries_held table plan.now }
{
    let mut count = 0;
    for delivery in plan {
        if delivery.table == table {
            count += 1;
        }
    }
    count
}

// How many deliveries of a plan go to each table, in the order of their numbers.
fn counts_of(alloc: Global, tables: u32, plan: &[Delivery]) -> Result<Vec<u64>, AllocError>
    requires tables { All (IsNumbered tables) plan.now }
    ensures many { IfOk result (λ counts. length counts.items ≡ tables) }
    ensures counts { IfOk result (λ counts. (place : ℕ) → place < tables → get_or counts.items place 0 ≡ deliveries_held (place + 1) plan.now) }
{
    let mut counts = vec![in alloc; 0u64; tables as usize]?;
    for delivery in plan {
        counts[delivery.table as usize - 1] += 1;
    }
    Ok(counts)
}
