// How a table is opened.
ghost use Rattle.std.specs.Prelude.{◌≡◌, ◌+◌, ◌≤◌, List, ℕ, length, map, true, false, Some, None, IfOk, IfSome, IsNone, OnOk, IsErrOf};
ghost use Rattle.chv_site.specs.Effects.{OnlyReads, ChangesOnly};
ghost use Rattle.chv_site.specs.FileIds.{table_log};
ghost use Rattle.chv_site.specs.Files.{settled};
ghost use Rattle.chv_site.specs.Outside.{bytes_in};
ghost use Rattle.chv_commit.specs.Commits.{commit_spelling, IsCommit};
ghost use Rattle.chv_commit.specs.Replays.{no_state, taken};
ghost use Rattle.chv_commit.specs.declared.commit.Commit.{Commit as SomeCommit};
ghost use Rattle.chv_gate.specs.GateLog.{HasFrames, begun};
ghost use Rattle.chv_gate.specs.Crashes.{Leaves, LeavesFrames};
ghost use Rattle.chv_part.specs.declared.damage.Damage.{Damage};
ghost use Rattle.chv_part.specs.Books.{AreColumns, Book, no_book};
ghost use Rattle.chv_part.specs.Forms.{form_of};
ghost use Rattle.chv_catalog.specs.Schemas.{kinds_of};
ghost use Rattle.chv_table.specs.Damage.{IsLogDamage};
ghost use Rattle.chv_table.specs.Faults.{log_fault_of};
ghost use Rattle.chv_table.specs.Opening.{Opens, ReadsCommit, TakesCommit, LacksCommit};
ghost use Rattle.chv_table.specs.Tables.{held_state, IsTableOf, IsWithin, IsPlaced, HoldsCommits, HoldsBook, SettlesBook};

use crate::{PutFault, Table, TableFault};
use chv_catalog::TableDef;
use chv_commit::{Replay, read_commit};
use chv_gate::{GateFault, GateRead, Log, begin, step};
use chv_part::Damage;
use chv_site::{FileId, Site};
use chv_types::Places;
use std::alloc::{AllocError, Global};

/// Begins the log of a new table, the number of which is 1 or more. After an `Err` it may be begun again.
pub fn begin_table<W: Site>(
    alloc: Global,
    site: &mut W,
    number: u32,
    def: &TableDef,
) -> Result<Table, PutFault>
    requires columns { AreColumns (kinds_of def.now) }
    ensures fresh { IfOk result (λ table. IsWithin table × IsTableOf number def.now table × (held_state table ≡ no_state)) }
    ensures placed { W.tells → IfOk result (λ table. IsPlaced table (W.outside site.new).files) }
    ensures begun { W.tells → OnOk result ((W.outside site.new).files (table_log number) ≡ settled (begun (bytes_in (W.outside site.old) (table_log number)))) }
    ensures book { W.tells → ((W.outside site.old).files (table_log number)).most ≤ 1 → IfOk result (λ table. HoldsBook table (W.outside site.new).files no_book) }
    // Of a log of which a crash left at most one byte before, a crash at any moment of the call leaves no more.
    ensures during { W.tells → ((W.outside site.old).files (table_log number)).most ≤ 1 → Leaves (table_log number) (λ bytes. length bytes ≤ 1) (W.outside site.old) (W.outside site.new) }
    // For every answer a log of two bytes or more keeps its bytes.
    ensures kept { W.tells → 2 ≤ length (bytes_in (W.outside site.old) (table_log number)) → bytes_in (W.outside site.new) (table_log number) ≡ bytes_in (W.outside site.old) (table_log number) }
    ensures keeps { ChangesOnly W.tells (IsErrOf result PutFault.Failed) (table_log number) (W.outside site.old) (W.outside site.new) }
{
    let kinds = def.kinds(alloc)?;
    let key = Places::from_slice(alloc, def.key.as_slice())?;
    let replay = Replay::new(alloc, def.window)?;
    let file = FileId::table_log(number);
    begin(site, file)?;
    Ok(Table {
        number,
        engine: def.engine,
        kinds,
        key,
        log: Log::at(file, 0),
        replay,
    })
}

/// Opens the table of a number from 1 on: begins its log, and reads it once, commit by commit.
///
/// Damage is told of its log alone; its parts are not read. After an `Err` the table may be opened again.
pub fn open_table<W: Site>(
    alloc: Global,
    site: &mut W,
    number: u32,
    def: &TableDef,
) -> Result<Table, TableFault>
    requires columns { AreColumns (kinds_of def.now) }
    ensures within { IfOk result (λ table. IsWithin table × IsTableOf number def.now table) }
    ensures placed { W.tells → IfOk result (λ table. IsPlaced table (W.outside site.new).files) }
    // It holds what the commits of its log say, which is not damaged.
    ensures commits { W.tells → IfOk result (λ table. (commits : List SomeCommit) × HoldsCommits table (W.outside site.new).files commits
        × HasFrames (map commit_spelling commits) (bytes_in (W.outside site.old) (table_log number))) }
    ensures book { W.tells → (book : Book) → SettlesBook number (form_of def.now) (W.outside site.old).files book → Opens result number (form_of def.now) book (W.outside site.old) (W.outside site.new) }
    ensures damaged { W.tells → (damage : Damage) → IsErrOf result (TableFault.Damaged damage)
        → IsLogDamage number def.now.window (bytes_in (W.outside site.old) (table_log number)) damage }
    // Whatever its parts are, a crash at any moment of the call leaves the frames of the log from before it.
    ensures during { W.tells → (payloads : List (List ℕ)) → LeavesFrames payloads ((W.outside site.old).files (table_log number))
        → Leaves (table_log number) (HasFrames payloads) (W.outside site.old) (W.outside site.new) }
    // For every answer a log of two bytes or more keeps its bytes.
    ensures kept { W.tells → 2 ≤ length (bytes_in (W.outside site.old) (table_log number)) → bytes_in (W.outside site.new) (table_log number) ≡ bytes_in (W.outside site.old) (table_log number) }
    ensures keeps { ChangesOnly W.tells (IsErrOf result TableFault.Failed) (table_log number) (W.outside site.old) (W.outside site.new) }
{
    let file = FileId::table_log(number);
    // All ids that are to be kept have their room before a file is touched.
    let mut replay = Replay::new(alloc, def.window)?;
    begin(site, file)?;
    let mut gate = 0;
    'commits: loop {
        match take_commit(alloc, site, file, gate, &mut replay)? {
            Some(next) => gate = next,
            None => return Ok(replayed_table(alloc, number, def, gate, replay)?),
        }
    }
}

// Reads the commit behind a gate of a table's log, takes it, and answers the place of the next gate; None where the log ends.
// It changes no file.
fn take_commit<W: Site>(
    alloc: Global,
    site: &mut W,
    log: FileId,
    gate: u64,
    replay: &mut Replay,
) -> Result<Option<u64>, TableFault>
    ensures read { W.tells → IfOk result (λ read. ReadsCommit gate replay.old.window replay.old.state (bytes_in (W.outside site.old) log) read replay.new.state) }
    ensures damaged { W.tells → (damage : Damage) → IsErrOf result (TableFault.Damaged damage)
        → (damage ≡ Damage.Log log.table (gate + 1)) × LacksCommit gate replay.old.window replay.old.state (bytes_in (W.outside site.old) log) }
    ensures forward { IfOk result (λ read. IfSome read (λ next. TakesCommit gate replay.old.window replay.old.state next replay.new.state)) }
    ensures end { IfOk result (λ read. IsNone read → replay.new ≡ replay.old) }
    ensures window { replay.new.window ≡ replay.old.window }
    ensures keeps { OnlyReads W.tells (IsErrOf result TableFault.Failed) (W.outside site.old) (W.outside site.new) }
{
    match step(alloc, site, log, gate) {
        Ok(GateRead::End { .. }) => Ok(None),
        Ok(GateRead::Body { payload, next }) => {
            if take_payload(alloc, &payload, replay)? {
                Ok(Some(next))
            } else {
                Err(TableFault::Damaged(Damage::Log {
                    table: log.table,
                    at: gate + 1,
                }))
            }
        }
        Err(fault) => Err(log_fault(log.table, fault)),
    }
}

// Takes the commit of a payload; false where it is that of no commit that fits, and then nothing changed.
fn take_payload(alloc: Global, payload: &[u8], replay: &mut Replay) -> Result<bool, AllocError>
    ensures taken { IfOk result (λ fits. fits ≡ true → (commit : SomeCommit) × IsCommit commit × (payload.now ≡ commit_spelling commit)
        × (taken replay.old.window replay.old.state commit ≡ Some replay.new.state)) }
    ensures lacks { IfOk result (λ fits. fits ≡ false → (commit : SomeCommit) → IsCommit commit → payload.now ≡ commit_spelling commit
        → taken replay.old.window replay.old.state commit ≡ None) }
    ensures kept { IfOk result (λ fits. fits ≡ false → replay.new ≡ replay.old) }
    ensures window { replay.new.window ≡ replay.old.window }
{
    match read_commit(alloc, payload)? {
        Some(commit) => replay.take(&commit),
        None => Ok(false),
    }
}

// The table of which a log was read to its end, at this gate.
fn replayed_table(
    alloc: Global,
    number: u32,
    def: &TableDef,
    gate: u64,
    replay: Replay,
) -> Result<Table, AllocError>
    requires window { replay.window ≡ def.now.window }
    ensures table { IfOk result (λ table. IsTableOf number def.now table) }
    ensures log { IfOk result (λ table. table.log ≡ record { file = table_log number; gate = gate }) }
    ensures state { IfOk result (λ table. held_state table ≡ replay.state) }
{
    let kinds = def.kinds(alloc)?;
    let key = Places::from_slice(alloc, def.key.as_slice())?;
    Ok(Table {
        number,
        engine: def.engine,
        kinds,
        key,
        log: Log::at(FileId::table_log(number), gate),
        replay,
    })
}

// Why a log was not read on, as a fault of its table.
fn log_fault(number: u32, fault: GateFault) -> TableFault
    ensures { result ≡ log_fault_of number fault }
{
    match fault {
        GateFault::Failed => TableFault::Failed,
        GateFault::NoMemory => TableFault::NoMemory,
        GateFault::Damaged { at } => TableFault::Damaged(Damage::Log { table: number, at }),
    }
}
