// How a block is delivered.
ghost use Rattle.std.specs.Prelude.{◌≡◌, ◌+◌, ◌≤◌, List, ℕ, true, not, nat_lt, IfOk, OnOk, IsErr};
ghost use Rattle.chv_commit.specs.Replays.{MAX_ENTRIES};
ghost use Rattle.chv_commit.specs.declared.commit.Commit.{Commit};
ghost use Rattle.chv_part.specs.Books.{Book, Entry};
ghost use Rattle.chv_table.specs.Delivering.{ChangesTable};
ghost use Rattle.chv_store.specs.Calls.{BringsTo, HoldsSame, Notes, StandsFor, Turns, books_behind, commits_behind};
ghost use Rattle.chv_store.specs.Holding.{HoldsBooks, HoldsLogs};
ghost use Rattle.chv_store.specs.Stores.{HasRoom, IsTable, IsUsable, IsWithin, forms_of, state_of};

use crate::Store;
use chv_commit::MAX_ENTRIES;
use chv_sip::BlockId;
use chv_site::{Failed, Site};
use chv_table::Delivered;
use std::alloc::AllocError;

impl Store {
    /// Makes room in memory for so many deliveries to the table of a number; false where it would have more entries than a
    /// table may.
    pub fn reserve(&mut self, table: u32, count: u64) -> Result<bool, AllocError>
        requires within { IsWithin self.old }
        requires table { IsTable self.old table }
        requires few { count ≤ 4294967296 }
        ensures fits { IfOk result (λ fits. fits ≡ not (nat_lt MAX_ENTRIES ((state_of self.old table).entries + count))) }
        ensures room { IfOk result (λ fits. fits ≡ true → HasRoom count self.new table) }
        // Room that a table has stays.
        ensures kept { (other room : ℕ) → HasRoom room self.old other → HasRoom room self.new other }
        ensures same { HoldsSame self.old self.new }
    {
        let held = &mut self.tables[table as usize - 1];
        if held.entries() + count > MAX_ENTRIES {
            return Ok(false);
        }
        held.reserve(count)?;
        Ok(true)
    }

    /// Delivers a block to the table of a number: where its id is among the last, nothing is done; else its part, which is
    /// `encoded`, is written, and then its commit is appended. The part holds so many rows, in normal form. It takes no
    /// memory. After an `Err` the store is not used again.
    pub fn deliver<W: Site>(
        &mut self,
        site: &mut W,
        table: u32,
        id: BlockId,
        rows: u64,
        encoded: &[u8],
    ) -> Result<Delivered, Failed>
        requires usable { IsUsable W.tells self.old (W.outside site.old) }
        requires room { HasRoom 1 self.old table }
        // The entry has arrived; a crash at any moment of the call leaves the books from before it or behind it.
        ensures delivered { W.tells → (payloads : List (List ℕ)) (books : ℕ → Book) (entry : Entry)
            → BringsTo self.old.schema.catalog.tables table id rows encoded.now entry → HoldsBooks self.old (W.outside site.old).files payloads books
            → Turns result (HoldsBooks self.new (W.outside site.new).files payloads (books_behind self.old table entry books))
            (StandsFor payloads (forms_of self.old) books) (StandsFor payloads (forms_of self.old) (books_behind self.old table entry books))
            (W.outside site.old) (W.outside site.new) }
        ensures logged { W.tells → IfOk result (λ answer. (payloads : List (List ℕ)) (commits : ℕ → List Commit) → HoldsLogs self.old (W.outside site.old).files payloads commits
            → HoldsLogs self.new (W.outside site.new).files payloads (commits_behind answer self.old table rows id commits)) }
        ensures noted { IfOk result (λ answer. Notes answer self.old self.new table rows id) }
        ensures nothing { IfOk result (λ answer. answer ≡ Delivered.Skipped → site.new ≡ site.old) }
        ensures usable { OnOk result (IsUsable W.tells self.new (W.outside site.new)) }
        ensures keeps { ChangesTable W.tells (IsErr result) table (state_of self.old table).next_part (W.outside site.old) (W.outside site.new) }
    {
        let held = &mut self.tables[table as usize - 1];
        held.deliver(site, id, rows, encoded)
    }
}
