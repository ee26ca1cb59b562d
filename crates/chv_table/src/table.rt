// One table while a run goes on.
ghost use Rattle.std.specs.Prelude.{◌≡◌, ◌↔◌, ◌+◌, ◌*◌, ◌<◌, ◌≤◌, ◌^◌, ℕ, List, [], ◌∷◌, ◌++◌, length, IfOk, OnOk, IsErr};
ghost use Rattle.std.specs.List.{Contains};
ghost use Rattle.chv_commit.specs.Commits.{commit_spelling};
ghost use Rattle.chv_commit.specs.Replays.{State};
ghost use Rattle.chv_commit.specs.declared.commit.Commit.{Commit as SomeCommit};
ghost use Rattle.chv_gate.specs.GateLog.{frame_of};
ghost use Rattle.chv_part.specs.Books.{Entry, Book, appended, arrived};
ghost use Rattle.chv_table.specs.Delivering.{ChangesTable, Brings, Turns, commits_after, state_after};
ghost use Rattle.chv_table.specs.Tables.{IsWithin, IsPlaced, Takes, HoldsBook, HoldsCommits, KeepsHeld, held_form, held_state, spare, HasRoomFor};
ghost use Rattle.chv_table.specs.Turning.{Becomes, Fits, noted};

use chv_commit::{PartRow, Replay, frame_of_one};
use chv_gate::Log;
use chv_part::write_part;
use chv_sip::BlockId;
use chv_site::{Failed, FileId, Site};
use chv_types::{Engine, Kinds, Places};
use std::alloc::AllocError;

/// What became of a delivery.
#[derive(Clone, Copy, Debug, PartialEq, Eq)]
pub enum Delivered {
    /// The block is the table's last entry.
    Written,
    /// A block with this id is among the last that were delivered, so nothing was written.
    Skipped,
}

/// A table: what a run holds of its definition and of its log, so that no insert reads it again.
#[derive(Debug, Drop)]
pub struct Table {
    /// Its number, counted from 1.
    pub(crate) number: u32,
    /// What a merge does with its rows.
    pub(crate) engine: Engine,
    /// The kinds of its columns.
    pub(crate) kinds: Kinds,
    /// The places of its sorting key's columns, in key order.
    pub(crate) key: Places,
    pub(crate) log: Log,
    /// What the commits of its log say.
    pub(crate) replay: Replay,
}

impl Table {
    /// How many entries the table has.
    pub fn entries(&self) -> u64
        ensures { result ≡ (held_state self.now).entries }
    {
        self.replay.entries()
    }

    /// The live parts, each behind the entries of the one before.
    pub fn parts(&self) -> &[PartRow]
        ensures { result.now ≡ (held_state self.now).layout }
    {
        self.replay.layout()
    }

    /// Makes room in memory for so many deliveries. After an `Err` the table may be used as before.
    pub fn reserve(&mut self, count: u64) -> Result<(), AllocError>
        requires few { count ≤ 2 ^ 32 }
        ensures room { OnOk result (count ≤ spare self.new) }
        ensures kept { spare self.old ≤ spare self.new }
        ensures same { KeepsHeld self.old self.new }
    {
        self.replay.reserve(count as usize)
    }

    /// Delivers a block: where its id is among the last, nothing is done; else its part, which is `encoded`, is written and
    /// synced, and then its commit is appended. The part holds so many rows, in normal form. It takes no memory. After an
    /// `Err` the table is not used again.
    pub fn deliver<W: Site>(
        &mut self,
        site: &mut W,
        id: BlockId,
        rows: u64,
        encoded: &[u8],
    ) -> Result<Delivered, Failed>
        requires takes { Takes W.tells 1 self.old (W.outside site.old) }
        // A crash at any moment of the call leaves the table's book from before it or after it.
        ensures turned { W.tells → (book : Book) (entry : Entry) → Brings self.old id rows encoded.now entry → HoldsBook self.old (W.outside site.old).files book
            → Turns result self.old self.new book (arrived (held_form self.old).window entry book) (W.outside site.old) (W.outside site.new) }
        // And whatever its parts are, the log has the commit of the block.
        ensures commits { W.tells → IfOk result (λ answer. (commits : List SomeCommit) → HoldsCommits self.old (W.outside site.old).files commits
            → HoldsCommits self.new (W.outside site.new).files (commits_after answer self.old rows id commits)) }
        ensures answer { IfOk result (λ answer. ((answer ≡ Delivered.Skipped) ↔ Contains (held_state self.old).ids id) × (held_state self.new ≡ state_after answer self.old rows id)) }
        ensures nothing { IfOk result (λ answer. answer ≡ Delivered.Skipped → (self.new ≡ self.old) × (site.new ≡ site.old)) }
        ensures room { OnOk result ((count : ℕ) → HasRoomFor (count + 1) self.old → HasRoomFor count self.new) }
        ensures ready { OnOk result (IsWithin self.new × (W.tells → IsPlaced self.new (W.outside site.new).files)) }
        ensures same { (self.new.number ≡ self.old.number) × (held_form self.new ≡ held_form self.old) }
        ensures keeps { ChangesTable W.tells (IsErr result) self.old.number (held_state self.old).next_part (W.outside site.old) (W.outside site.new) }
    {
        if self.replay.has(id) {
            return Ok(Delivered::Skipped);
        }
        self.write(site, id, rows, encoded)?;
        Ok(Delivered::Written)
    }

    // Writes a block that is not skipped: its part, and then its commit.
    fn write<W: Site>(
        &mut self,
        site: &mut W,
        id: BlockId,
        rows: u64,
        encoded: &[u8],
    ) -> Result<(), Failed>
        requires takes { Takes W.tells 1 self.old (W.outside site.old) }
        requires new { Contains (held_state self.old).ids id → ⊥ }
        ensures turned { W.tells → (book : Book) (entry : Entry) → Brings self.old id rows encoded.now entry → HoldsBook self.old (W.outside site.old).files book
            → Turns result self.old self.new book (appended entry book) (W.outside site.old) (W.outside site.new) }
        ensures commits { W.tells → OnOk result ((commits : List SomeCommit) → HoldsCommits self.old (W.outside site.old).files commits
            → HoldsCommits self.new (W.outside site.new).files (commits_after Delivered.Written self.old rows id commits)) }
        ensures state { OnOk result (held_state self.new ≡ state_after Delivered.Written self.old rows id) }
        ensures room { OnOk result ((count : ℕ) → HasRoomFor (count + 1) self.old → HasRoomFor count self.new) }
        ensures ready { OnOk result (IsWithin self.new × (W.tells → IsPlaced self.new (W.outside site.new).files)) }
        ensures same { (self.new.number ≡ self.old.number) × (held_form self.new ≡ held_form self.old) }
        ensures keeps { ChangesTable W.tells (IsErr result) self.old.number (held_state self.old).next_part (W.outside site.old) (W.outside site.new) }
    {
        let frame = frame_of_one(self.replay.next_part(), rows, id);
        self.write_and_append(site, encoded, &frame)?;
        self.replay.take_one(rows, id);
        Ok(())
    }

    /// Writes the file of the next part and syncs it, and then appends the frame of the commit that tells of it.
    pub(crate) fn write_and_append<W: Site>(
        &mut self,
        site: &mut W,
        encoded: &[u8],
        frame: &[u8],
    ) -> Result<(), Failed>
        requires within { IsWithin self.old }
        requires placed { W.tells → IsPlaced self.old (W.outside site.old).files }
        requires short { length frame.now ≤ 64 }
        // A crash at any moment of the call leaves the table's book from before the commit or after it.
        ensures turned { W.tells → (commit : SomeCommit) (state : State) (book next : Book) → HoldsBook self.old (W.outside site.old).files book
            → Becomes self.old book next commit state encoded.now → frame.now ≡ frame_of (commit_spelling commit)
            → Turns result self.old (noted state self.new) book next (W.outside site.old) (W.outside site.new) }
        ensures commits { W.tells → OnOk result ((commit : SomeCommit) (state : State) (commits : List SomeCommit) → HoldsCommits self.old (W.outside site.old).files commits
            → Fits self.old commit state → frame.now ≡ frame_of (commit_spelling commit) → HoldsCommits (noted state self.new) (W.outside site.new).files (commits ++ commit ∷ [])) }
        ensures same { self.new ≡ record self.old { log = self.new.log } }
        ensures file { self.new.log.file ≡ self.old.log.file }
        ensures gate { OnOk result (self.new.log.gate ≡ self.old.log.gate + length frame.now) }
        ensures placed { W.tells → OnOk result (IsPlaced self.new (W.outside site.new).files) }
        ensures keeps { ChangesTable W.tells (IsErr result) self.old.number (held_state self.old).next_part (W.outside site.old) (W.outside site.new) }
    {
        // The part first: a commit that a crash left without its part would be damage.
        let part = FileId::part(self.number, self.replay.next_part());
        write_part(site, part, encoded)?;
        self.log.append(site, frame)?;
        Ok(())
    }
}
