// Tables that are opened, and logs that are damaged.
ghost use Rattle.std.specs.Prelude.{IfOk};
ghost use Rattle.chv_site.specs.MemSite.{files_of};
ghost use Rattle.chv_table.specs.Tables.{IsPlaced, IsWithin};

use crate::making::{are_delivered, numbers, put_behind};
use chv_commit::PartRow;
use chv_part::Damage;
use chv_site::{Fails, FileId, MemSite};
use chv_table::{Table, TableFault, open_table};
use std::alloc::Global;

const LOG: FileId = FileId { table: 1, part: 0 };

// An open gate, and behind it the frame of one entry with the part 8 of one row, up to the next gate. The part is at 6, and
// the entry's id, which is that number too, at 26.
const COMMIT: [u8; 42] = [
    1, 37, 0, 0, 0, 1, 8, 0, 0, 0, 0, 0, 0, 0, 1, 0, 0, 0, 0, 0, 0, 0, 1, 0, 0, 0, 8, 0, 0, 0, 0,
    0, 0, 0, 0, 0, 0, 0, 0, 0, 0, 0,
];

// The same as a commit of another kind, and a closed gate.
const OTHER_KIND: [u8; 43] = [
    1, 37, 0, 0, 0, 2, 8, 0, 0, 0, 0, 0, 0, 0, 1, 0, 0, 0, 0, 0, 0, 0, 1, 0, 0, 0, 8, 0, 0, 0, 0,
    0, 0, 0, 0, 0, 0, 0, 0, 0, 0, 0, 0,
];

// The parts of the entries 1 and 2 become the part 10 of level 1, which holds two rows; three entries come with the part 11,
// which holds six; and a closed gate.
const MERGE_AND_THREE: [u8; 121] = [
    1, 41, 0, 0, 0, 2, 1, 0, 0, 0, 0, 0, 0, 0, 2, 0, 0, 0, 0, 0, 0, 0, 10, 0, 0, 0, 0, 0, 0, 0, 1,
    0, 0, 0, 0, 0, 0, 0, 2, 0, 0, 0, 0, 0, 0, 0, 1, 69, 0, 0, 0, 1, 11, 0, 0, 0, 0, 0, 0, 0, 6, 0,
    0, 0, 0, 0, 0, 0, 3, 0, 0, 0, 30, 0, 0, 0, 0, 0, 0, 0, 0, 0, 0, 0, 0, 0, 0, 0, 31, 0, 0, 0, 0,
    0, 0, 0, 0, 0, 0, 0, 0, 0, 0, 0, 32, 0, 0, 0, 0, 0, 0, 0, 0, 0, 0, 0, 0, 0, 0, 0, 0,
];

// A merge to a level above that of its parts by two, in place of one.
const TOO_HIGH: [u8; 48] = [
    1, 41, 0, 0, 0, 2, 1, 0, 0, 0, 0, 0, 0, 0, 2, 0, 0, 0, 0, 0, 0, 0, 10, 0, 0, 0, 0, 0, 0, 0, 2,
    0, 0, 0, 0, 0, 0, 0, 2, 0, 0, 0, 0, 0, 0, 0, 0, 0,
];

fn commit_of(part: u8) -> [u8; 42] {
    let mut commit = COMMIT;
    commit[6] = part;
    commit[26] = part;
    commit
}

// Puts a log: a commit for each of these parts, and these bytes behind them. It takes a call for each, and one.
fn is_put(site: &mut MemSite, parts: &[u8], behind: &[u8]) -> bool {
    for part in parts {
        if !put_behind(site, LOG, &commit_of(*part)) {
            return false;
        }
    }
    put_behind(site, LOG, behind)
}

/// Table 1, opened with a window of so many ids.
pub fn opened(alloc: Global, site: &mut MemSite, window: u32) -> Result<Table, TableFault>
    ensures within { IfOk result IsWithin }
    ensures placed { IfOk result (λ table. IsPlaced table (files_of site.new)) }
{
    match numbers(alloc, window) {
        Ok(def) => open_table(alloc, site, 1, &def),
        Err(_) => Err(TableFault::NoMemory),
    }
}

// Whether the table with such a log has so many entries; or, where it is not sound, is told as damaged at this place.
fn is_opened(alloc: Global, parts: &[u8], behind: &[u8], is_sound: bool, number: u64) -> bool {
    let mut site = MemSite::new(alloc, Fails::new(alloc));
    if !is_put(&mut site, parts, behind) {
        return false;
    }
    is_told(opened(alloc, &mut site, 4), is_sound, number)
}

fn is_told(opened: Result<Table, TableFault>, is_sound: bool, number: u64) -> bool {
    match opened {
        Ok(table) => is_sound && table.entries() == number,
        Err(TableFault::Damaged(Damage::Log { table: 1, at })) => !is_sound && at == number,
        Err(_) => false,
    }
}

const LOGS: &'static [(&'static [u8], &'static [u8], bool, u64)] = &[
    // A log that is not begun, a torn one, and bytes without a meaning behind a gate that is not open.
    (&[], &[], true, 0),
    (&[], &[1], true, 0),
    (&[], &[7, 37, 0], true, 0),
    (&[8], &[0], true, 1),
    (&[8, 9, 10], &[0, 37, 0, 0], true, 3),
    (&[8, 9], &MERGE_AND_THREE, true, 5),
    // An open gate, and nothing behind it; a frame without a gate behind it; and a length of 0.
    (&[8], &[1], false, 43),
    (&[8, 9], &[], false, 43),
    (&[], &[1, 0, 0, 0, 0, 0], false, 1),
    // A commit of another kind.
    (&[], &OTHER_KIND, false, 1),
    // The first commit has part 8, and each other one the next number.
    (&[9], &[0], false, 1),
    (&[8, 8], &[0], false, 43),
    (&[8, 10], &[0], false, 43),
    (&[8, 9, 8], &[0], false, 85),
    // The two parts that become one are not there; and their one is of another level.
    (&[8], &MERGE_AND_THREE, false, 43),
    (&[8, 9], &TOO_HIGH, false, 85),
];

// Damage is told behind the gate where it begins.
#[test]
fn each_commit_is_an_entry_up_to_the_end_or_to_damage(rt: HostRuntime) {
    for log in LOGS {
        assert!(rt; is_opened(rt.alloc(), log.0, log.1, log.2, log.3));
    }
}

const LIVE_PARTS: [PartRow; 2] = [
    PartRow {
        lo: 1,
        hi: 2,
        level: 1,
        part: 10,
        rows: 2,
    },
    PartRow {
        lo: 3,
        hi: 5,
        level: 0,
        part: 11,
        rows: 6,
    },
];

// The last four ids are 9, 30, 31 and 32.
fn gives_its_end(alloc: Global) -> bool {
    let mut site = MemSite::new(alloc, Fails::new(alloc));
    if !is_put(&mut site, &[8, 9], &MERGE_AND_THREE) {
        return false;
    }
    match opened(alloc, &mut site, 4) {
        Ok(mut table) => {
            table.parts() == LIVE_PARTS.as_slice()
                && are_delivered(&mut site, &mut table, [9, 30, 31, 32, 8], b"ssssw")
        }
        Err(_) => false,
    }
}

#[test]
fn a_log_gives_the_live_parts_and_the_last_ids(rt: HostRuntime) {
    assert!(rt; gives_its_end(rt.alloc()));
}
