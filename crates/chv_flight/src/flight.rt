// A run on an open store, turn by turn.
ghost use Rattle.std.specs.Prelude.{◌≡◌, ◌<◌, IfOk, replicate};
ghost use Rattle.chv_flight.specs.Flights.{IsBegun, IsReady, fresh};
ghost use Rattle.chv_flight.specs.Turns.{Acts, Drains, HasDelivery};
ghost use Rattle.chv_flight.specs.Takes.{TakesPiece};

use crate::client::Client;
use crate::deliver::deliver_next;
use crate::fault::RunFault;
use crate::order::next_of;
use crate::take::take;
use crate::turned::Turned;
use chv_catalog::Schema;
use chv_lex::{Piece, cut_script};
use chv_site::Site;
use chv_store::Store;
use chv_types::Bytes;
use sqlite_items::Items;
use std::alloc::{AllocError, Global};

/// How many clients a run has.
const CLIENTS: u8 = 16;

/// A run: its store, its script, what each client still has to do, and whether a statement was refused.
#[derive(Drop)]
pub struct Flight {
    pub(crate) alloc: Global,
    pub(crate) store: Store,
    pub(crate) script: Bytes,
    pub(crate) pieces: Items<Piece>,
    /// The clients, in the order of their numbers.
    pub(crate) clients: Vec<Client>,
    pub(crate) refused: bool,
}

impl Flight {
    /// A run of a script on an open store.
    pub fn new(alloc: Global, store: Store, script: Bytes) -> Result<Flight, AllocError>
        ensures { IfOk result (λ flight. IsBegun store script flight) }
    {
        let pieces = cut_script(alloc, script.as_slice())?;
        let clients = fresh_clients(alloc)?;
        Ok(Flight {
            alloc,
            store,
            script,
            pieces,
            clients,
            refused: false,
        })
    }

    /// The definitions of the tables.
    pub fn schema(&self) -> &Schema
        ensures { result.now ≡ self.now.store.schema }
    {
        self.store.schema()
    }

    /// A turn of a client: its next delivery is made; or, where none is left, its next statement is taken.
    ///
    /// After an `Err` only `schema` is used.
    pub fn turn<W: Site>(&mut self, site: &mut W, client: u8) -> Result<Turned, RunFault>
        requires ready { IsReady W.tells self.old (W.outside site.old) }
        requires client { client < 16 }
        ensures { Acts W.tells client result self.old self.new (W.outside site.old) (W.outside site.new) }
    {
        if self.clients[client as usize].has_delivery() {
            return self.deliver_next(site, client);
        }
        self.take_next(site, client)
    }

    // Makes the next delivery of a client.
    fn deliver_next<W: Site>(&mut self, site: &mut W, client: u8) -> Result<Turned, RunFault>
        requires ready { IsReady W.tells self.old (W.outside site.old) }
        requires client { client < 16 }
        requires left { HasDelivery self.old client }
        ensures { Acts W.tells client result self.old self.new (W.outside site.old) (W.outside site.new) }
    {
        deliver_next(
            self.alloc,
            site,
            &mut self.store,
            client,
            &mut self.clients[client as usize],
        )?;
        Ok(Turned::Moved)
    }

    // Takes the next statement of a client that has no delivery left.
    fn take_next<W: Site>(&mut self, site: &mut W, client: u8) -> Result<Turned, RunFault>
        requires ready { IsReady W.tells self.old (W.outside site.old) }
        requires client { client < 16 }
        requires none { HasDelivery self.old client → ⊥ }
        ensures { Acts W.tells client result self.old self.new (W.outside site.old) (W.outside site.new) }
    {
        let place = self.clients[client as usize].place;
        let Some((piece, behind)) = next_of(self.pieces.as_slice(), client, place) else {
            return Ok(Turned::Idle);
        };
        self.take(site, client, piece, behind)
    }

    // Takes the statement of a client's piece; its next one is looked for behind this place.
    fn take<W: Site>(
        &mut self,
        site: &mut W,
        client: u8,
        piece: Piece,
        behind: usize,
    ) -> Result<Turned, RunFault>
        requires ready { IsReady W.tells self.old (W.outside site.old) }
        requires client { client < 16 }
        requires takes { TakesPiece self.old client piece behind }
        ensures { Acts W.tells client result self.old self.new (W.outside site.old) (W.outside site.new) }
    {
        let text = &self.script.as_slice()[piece.start..piece.end];
        let taken = take(
            self.alloc,
            site,
            &mut self.store,
            self.clients.as_slice(),
            client,
            text,
        )?;
        self.refused |= taken.refused;
        self.clients[client as usize] = Client {
            place: behind,
            plan: taken.plan,
            made: 0,
            written: 0,
        };
        Ok(Turned::Moved)
    }

    /// The rest of a run: turns of the first client that has something to do, until none has. True where a statement of the
    /// run was refused.
    ///
    /// After an `Err` only `schema` is used.
    pub fn drain<W: Site>(&mut self, site: &mut W) -> Result<bool, RunFault>
        requires ready { IsReady W.tells self.old (W.outside site.old) }
        ensures { Drains W.tells result self.old self.new (W.outside site.old) (W.outside site.new) }
    {
        let mut client = 0;
        'clients: while client < CLIENTS {
            'statements: loop {
                'deliveries: while self.clients[client as usize].has_delivery() {
                    self.turn(site, client)?;
                }
                match self.turn(site, client)? {
                    Turned::Moved => {}
                    Turned::Idle => break,
                }
            }
            client += 1;
        }
        Ok(self.refused)
    }
}

// The clients of a run that begins.
fn fresh_clients(alloc: Global) -> Result<Vec<Client>, AllocError>
    ensures { IfOk result (λ clients. clients.items ≡ replicate 16 fresh) }
{
    let mut clients = Vec::new(alloc);
    for _ in 0..CLIENTS {
        clients.push(Client::new(alloc))?;
    }
    Ok(clients)
}
