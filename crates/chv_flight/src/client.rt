// What is held of a client.
ghost use Rattle.std.specs.Prelude.{◌≡◌, [], length, nat_lt};
ghost use Rattle.chv_flight.specs.Flights.{fresh};

use chv_plan::Deliveries;
use std::alloc::Global;

/// What a client still has to do.
#[derive(Drop)]
pub struct Client {
    /// The place among the script's pieces from which on its next one is looked for.
    pub(crate) place: usize,
    /// The deliveries of the INSERT that it asked for last.
    pub(crate) plan: Deliveries,
    /// How many of them are made.
    pub(crate) made: usize,
    /// How many of those were written.
    pub(crate) written: u64,
}

impl Client {
    /// A client that was not heard yet.
    pub fn new(alloc: Global) -> Client
        ensures { result ≡ fresh }
    {
        Client {
            place: 0,
            plan: Deliveries::new(alloc),
            made: 0,
            written: 0,
        }
    }

    /// Whether a delivery is left.
    pub fn has_delivery(&self) -> bool
        ensures { result ≡ nat_lt self.now.made (length self.now.plan) }
    {
        self.made < self.plan.len()
    }

    /// Forgets an INSERT that is answered.
    pub fn end(&mut self, alloc: Global)
        ensures place { self.new.place ≡ self.old.place }
        ensures plan { self.new.plan ≡ [] }
        ensures made { self.new.made ≡ 0 }
        ensures written { self.new.written ≡ 0 }
    {
        self.plan = Deliveries::new(alloc);
        self.made = 0;
        self.written = 0;
    }
}
