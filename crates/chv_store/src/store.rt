// What is held of a store.
ghost use Rattle.std.specs.Prelude.{◌≡◌};
ghost use Rattle.chv_store.specs.Stores.{IsWithin, IsTable, state_of};

use chv_catalog::Schema;
use chv_commit::PartRow;
use chv_gate::Log;
use chv_table::Table;

/// A store: what is held of its logs, so that none is read again.
#[derive(Drop)]
pub struct Store {
    /// The catalog's log.
    pub(crate) catalog: Log,
    /// The definitions of the tables, numbered from 1.
    pub(crate) schema: Schema,
    /// The tables, in the order of their numbers.
    pub(crate) tables: Vec<Table>,
}

impl Store {
    /// The definitions of the tables.
    pub fn schema(&self) -> &Schema
        ensures { result.now ≡ self.now.schema }
    {
        &self.schema
    }

    /// The live parts of the table of a number, each behind the entries of the one before.
    pub fn parts(&self, table: u32) -> &[PartRow]
        requires within { IsWithin self.now }
        requires table { IsTable self.now table }
        ensures { result.now ≡ (state_of self.now table).layout }
    {
        self.tables[table as usize - 1].parts()
    }
}
