// Parts that become one.
ghost use Rattle.std.specs.Prelude.{◌≡◌, ◌↔◌, ◌+◌, ◌≤◌, ◌++◌, ◌∷◌, [], List, length, map, Some, IfOk, OnOk, IsErr, IsErrOf, IsSome, IsTrue};
ghost use Rattle.std.specs.List.{All};
ghost use Rattle.chv_site.specs.During.{During};
ghost use Rattle.chv_site.specs.Effects.{OnlyReads};
ghost use Rattle.chv_site.specs.Outside.{bytes_in};
ghost use Rattle.chv_commit.specs.Replays.{Merges, State, merge_of, span_of, taken};
ghost use Rattle.chv_commit.specs.declared.commit.Commit.{Commit as SomeCommit};
ghost use Rattle.chv_merge.specs.declared.run.Run.{Run as SomeRun};
ghost use Rattle.chv_part.specs.Books.{Book, IsLawfulBook, part_rows};
ghost use Rattle.chv_part.specs.Merging.{IsRowOf, IsRunOf, all_merged, all_parts, merged, next_merged};
ghost use Rattle.chv_part.specs.Parts.{IsPartFile};
ghost use Rattle.chv_part.specs.Standing.{IsPart};
ghost use Rattle.chv_part.specs.declared.damage.Damage.{Damage};
ghost use Rattle.chv_table.specs.Damage.{ArePartsWhole, IsPartDamage};
ghost use Rattle.chv_table.specs.Delivering.{Turns};
ghost use Rattle.chv_table.specs.Merging.{ChangesFilesOf, ChangesParts, IsLeftBut, MergesRun, all_in, due_in, run_parts};
ghost use Rattle.chv_table.specs.Tables.{HoldsBook, HoldsCommits, IsPlaced, IsWithin, held_form, held_state, spare};

use crate::discarding::discard_parts;
use crate::{Table, TableFault};
use chv_commit::{PartRow, Replay, frame_of_merge, greatest_level};
use chv_merge::{Run, pick};
use chv_part::encode_part;
use chv_site::{Failed, Site};
use chv_types::Bytes;
use std::alloc::Global;

// A part that parts of a run become, and its file.
#[derive(Drop)]
struct Joint {
    row: PartRow,
    encoded: Bytes,
}

impl Table {
    /// Whether a merge is due: eight neighbouring parts share a level.
    pub fn merge_due(&self) -> bool
        ensures { IsTrue result ↔ IsSome (due_in self.now) }
    {
        pick(self.replay.layout()).is_some()
    }

    /// Makes the merge that is due, where one is: of the lowest level that has eight neighbouring parts the leftmost eight become
    /// one part of the next level. No entry changes. After Failed or Damaged the table is not used again.
    pub fn merge_step<W: Site>(&mut self, alloc: Global, site: &mut W) -> Result<(), TableFault>
        requires within { IsWithin self.old }
        requires placed { W.tells → IsPlaced self.old (W.outside site.old).files }
        // A crash at any moment of the call leaves the table's book from before the merge or after it.
        ensures turned { W.tells → (book : Book) → HoldsBook self.old (W.outside site.old).files book
            → Turns result self.old self.new book (next_merged book) (W.outside site.old) (W.outside site.new) }
        ensures merges { MergesRun W.tells (due_in self.old) result self.old self.new (W.outside site.old) (W.outside site.new) }
    {
        let run = pick(self.replay.layout());
        self.merge_where(alloc, site, run)
    }

    /// Makes all parts one, where they are two or more; its level is one above their greatest. No entry changes. After Failed or
    /// Damaged the table is not used again.
    pub fn merge_all<W: Site>(&mut self, alloc: Global, site: &mut W) -> Result<(), TableFault>
        requires within { IsWithin self.old }
        requires placed { W.tells → IsPlaced self.old (W.outside site.old).files }
        // A crash at any moment of the call leaves the table's book from before the merge or after it.
        ensures turned { W.tells → (book : Book) → HoldsBook self.old (W.outside site.old).files book
            → Turns result self.old self.new book (all_merged book) (W.outside site.old) (W.outside site.new) }
        ensures merges { MergesRun W.tells (all_in self.old) result self.old self.new (W.outside site.old) (W.outside site.new) }
    {
        let run = all_parts(self.replay.layout());
        self.merge_where(alloc, site, run)
    }

    // Makes a run of parts into one, where there is a run.
    fn merge_where<W: Site>(
        &mut self,
        alloc: Global,
        site: &mut W,
        run: Option<Run>,
    ) -> Result<(), TableFault>
        requires within { IsWithin self.old }
        requires placed { W.tells → IsPlaced self.old (W.outside site.old).files }
        requires run { (r : SomeRun) → run ≡ Some r → IsRunOf (map span_of (held_state self.old).layout) r }
        ensures { MergesRun W.tells run result self.old self.new (W.outside site.old) (W.outside site.new) }
    {
        match run {
            Some(run) => self.merge_run(alloc, site, run),
            None => Ok(()),
        }
    }

    // Makes a run of parts into one.
    fn merge_run<W: Site>(
        &mut self,
        alloc: Global,
        site: &mut W,
        run: Run,
    ) -> Result<(), TableFault>
        requires within { IsWithin self.old }
        requires placed { W.tells → IsPlaced self.old (W.outside site.old).files }
        requires run { IsRunOf (map span_of (held_state self.old).layout) run }
        ensures { MergesRun W.tells (Some run) result self.old self.new (W.outside site.old) (W.outside site.new) }
    {
        let one = self.read_run(alloc, site, run)?;
        self.replace_run(site, run, one.row, one.encoded.as_slice())?;
        Ok(())
    }

    // The part that a run of parts becomes, and its file. It takes all memory of a merge, and changes no file.
    fn read_run<W: Site>(&self, alloc: Global, site: &mut W, run: Run) -> Result<Joint, TableFault>
        requires within { IsWithin self.now }
        requires run { IsRunOf (map span_of (held_state self.now).layout) run }
        ensures row { IfOk result (λ one. IsRowOf (held_state self.now).layout run one.row × (one.row.part ≡ (held_state self.now).next_part)) }
        ensures rows { W.tells → IfOk result (λ one. (book : Book) → IsLawfulBook (held_form self.now) book
            → All (IsPart (bytes_in (W.outside site.old)) self.now.number (held_form self.now) book) (held_state self.now).layout
            → (one.row.rows ≡ length (part_rows (held_form self.now) book one.row.lo one.row.hi))
            × IsPartFile (held_form self.now) (part_rows (held_form self.now) book one.row.lo one.row.hi) one.encoded) }
        ensures whole { W.tells → OnOk result (ArePartsWhole self.now.number (held_form self.now) (run_parts run (held_state self.now).layout) (bytes_in (W.outside site.old))) }
        ensures damaged { W.tells → (damage : Damage) → IsErrOf result (TableFault.Damaged damage)
            → IsPartDamage self.now.number (held_form self.now) (run_parts run (held_state self.now).layout) (bytes_in (W.outside site.old)) damage }
        ensures keeps { OnlyReads W.tells (IsErrOf result TableFault.Failed) (W.outside site.old) (W.outside site.new) }
    {
        let parts = &self.replay.layout()[run.from..run.from + run.count];
        let rows = self.normal_rows(alloc, site, parts)?;
        let encoded = encode_part(alloc, &self.kinds, &rows)?;
        let row = self.row_of_run(run, rows.len() as u64);
        Ok(Joint { row, encoded })
    }

    // The part that a run of parts becomes: the next one, which holds so many rows.
    fn row_of_run(&self, run: Run, rows: u64) -> PartRow
        requires within { IsWithin self.now }
        requires run { IsRunOf (map span_of (held_state self.now).layout) run }
        ensures row { IsRowOf (held_state self.now).layout run result }
        ensures part { result.part ≡ (held_state self.now).next_part }
        ensures rows { result.rows ≡ rows }
    {
        let layout = self.replay.layout();
        PartRow {
            lo: layout[run.from].lo,
            hi: layout[run.from + run.count - 1].hi,
            level: run.level + 1,
            part: self.replay.next_part(),
            rows,
        }
    }

    // Puts a part in the place of a run of parts: it is written, then its commit is appended, and then the files of the others are
    // discarded. It takes no memory.
    fn replace_run<W: Site>(
        &mut self,
        site: &mut W,
        run: Run,
        row: PartRow,
        encoded: &[u8],
    ) -> Result<(), Failed>
        requires within { IsWithin self.old }
        requires placed { W.tells → IsPlaced self.old (W.outside site.old).files }
        requires row { IsRowOf (held_state self.old).layout run row }
        requires part { row.part ≡ (held_state self.old).next_part }
        ensures turned { W.tells → (book : Book) → HoldsBook self.old (W.outside site.old).files book
            → row.rows ≡ length (part_rows (held_form self.old) book row.lo row.hi)
            → IsPartFile (held_form self.old) (part_rows (held_form self.old) book row.lo row.hi) encoded.now
            → Turns result self.old self.new book (merged run book) (W.outside site.old) (W.outside site.new) }
        ensures commits { W.tells → OnOk result ((commits : List SomeCommit) → HoldsCommits self.old (W.outside site.old).files commits
            → HoldsCommits self.new (W.outside site.new).files (commits ++ merge_of row ∷ [])) }
        ensures merges { OnOk result (Merges row (held_state self.old) (held_state self.new)) }
        ensures ready { OnOk result (IsWithin self.new × (W.tells → IsPlaced self.new (W.outside site.new).files)) }
        ensures room { OnOk result (spare self.old ≤ spare self.new) }
        ensures same { (self.new.number ≡ self.old.number) × (held_form self.new ≡ held_form self.old) }
        ensures keeps { ChangesFilesOf W.tells (IsErr result) self.old.number (W.outside site.old) (W.outside site.new) }
    {
        self.write_and_append(site, encoded, &frame_of_merge(&row))?;
        // Behind the commit: until it is in the log, these parts are live.
        self.discard_run(site, run)?;
        note_merge(&mut self.replay, row);
        Ok(())
    }

    // Discards the files of a run of parts.
    fn discard_run<W: Site>(&self, site: &mut W, run: Run) -> Result<(), Failed>
        requires run { run.from + run.count ≤ length (held_state self.now).layout }
        ensures during { W.tells → During (W.outside site.old) (W.outside site.new)
            (IsLeftBut self.now.number (run_parts run (held_state self.now).layout) (W.outside site.old).files (W.outside site.old).said) }
        ensures keeps { ChangesParts W.tells (IsErr result) self.now.number (run_parts run (held_state self.now).layout) (W.outside site.old) (W.outside site.new) }
    {
        let gone = &self.replay.layout()[run.from..run.from + run.count];
        discard_parts(site, self.number, gone)
    }
}

// Notes the commit of parts that became one.
fn note_merge(replay: &mut Replay, row: PartRow)
    requires fits { (state : State) × (taken replay.old.window replay.old.state (merge_of row) ≡ Some state) }
    ensures state { taken replay.old.window replay.old.state (merge_of row) ≡ Some replay.new.state }
    ensures window { replay.new.window ≡ replay.old.window }
    ensures room { replay.old.spare ≤ replay.new.spare }
{
    if !replay.take_merge(row) {
        prove!(false);
    }
}

// The run of all parts, where they are two or more.
fn all_parts(layout: &[PartRow]) -> Option<Run>
    ensures { result ≡ all_parts (map span_of layout.now) }
{
    if layout.len() < 2 {
        return None;
    }
    Some(Run {
        from: 0,
        count: layout.len(),
        level: greatest_level(layout),
    })
}
