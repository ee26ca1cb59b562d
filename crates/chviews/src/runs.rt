// Whole runs over a source and a site in memory. A step answers whether it went as it was told, so that a test is one condition.
use chv_engine::{Status, Words, chviews};
use chv_site::{Fails, FileId, MemSite, MemSource, Pick, Site};
use std::alloc::{AllocError, Global};

// A table that keeps the ids of its last blocks, and one block.
const FIRST: &'static [u8] =
    b"CREATE TABLE s (k UInt64, v UInt64) ENGINE = MergeTree ORDER BY k SETTINGS non_replicated_deduplication_window = 100; INSERT INTO s VALUES (2,20),(1,10);";

// The same table, and two blocks of one row; and behind them all rows.
const BLOCKS: &'static [u8] =
    b"CREATE TABLE s (k UInt64, v UInt64) ENGINE = MergeTree ORDER BY k SETTINGS non_replicated_deduplication_window = 100; INSERT INTO s SETTINGS max_insert_block_size = 1, min_insert_block_size_rows = 0, min_insert_block_size_bytes = 0 VALUES (2,20),(1,10); SELECT * FROM s;";

const CATALOG: FileId = FileId { table: 0, part: 0 };

const LOG: FileId = FileId { table: 1, part: 0 };

const PART: FileId = FileId { table: 1, part: 8 };

/// A site whose call of this number fails; 0 for none.
pub fn site_failing_at(alloc: Global, call: u64) -> MemSite {
    let mut fails = Fails::new(alloc);
    let _ = fails.push(call);
    MemSite::new(alloc, fails)
}

fn words_of(alloc: Global, words: &[&str]) -> Result<Words, AllocError> {
    let mut items = Vec::new(alloc);
    for word in words {
        items.push(String::from_str(alloc, word)?)?;
    }
    Ok(Words { items })
}

// How the call with these words ends, whose pull of this number fails; 0 for none.
fn called(
    alloc: Global,
    site: &mut MemSite,
    words: &[&str],
    script: &[u8],
    pull: u64,
) -> Option<Status> {
    let mut fails = Fails::new(alloc);
    let _ = fails.push(pull);
    match (words_of(alloc, words), script.to_vec(alloc)) {
        (Ok(words), Ok(bytes)) => {
            let mut source = MemSource::new(bytes, fails);
            Some(chviews(alloc, &words, &mut source, site))
        }
        _ => None,
    }
}

/// How the run of a script ends.
pub fn run(alloc: Global, site: &mut MemSite, script: &[u8]) -> Option<Status> {
    called(alloc, site, &["run"], script, 0)
}

/// Whether the run of a script ends so, and this is all that the site has then said.
pub fn ends(alloc: Global, site: &mut MemSite, script: &[u8], status: Status, said: &[u8]) -> bool {
    run(alloc, site, script) == Some(status) && site.said() == said
}

// The site after a crash, and a run on it that ends and says so.
fn later(alloc: Global, site: MemSite, pick: Pick, script: &[u8], said: &[u8]) -> Option<MemSite> {
    let mut left = site.crash(pick).ok()?;
    if !ends(alloc, &mut left, script, Status::Done, said) {
        return None;
    }
    Some(left)
}

const FIRST_SAID: &'static [u8] = b"@0 Ok.\n@0 Ok. 1 written, 0 skipped\n";

// The site that a crash leaves behind the first run.
fn first_run(alloc: Global) -> Option<MemSite> {
    let site = MemSite::new(alloc, Fails::new(alloc));
    let site = later(alloc, site, Pick::New, FIRST, FIRST_SAID)?;
    site.crash(Pick::New).ok()
}

const CATALOG_BYTES: &'static [u8] =
    b"\x01\x76\0\0\0CREATE TABLE s (k UInt64, v UInt64) ENGINE = MergeTree ORDER BY (k) SETTINGS non_replicated_deduplication_window = 100\0";

const LOG_BYTES: &'static [u8] = &[
    1, 37, 0, 0, 0, 1, 8, 0, 0, 0, 0, 0, 0, 0, 2, 0, 0, 0, 0, 0, 0, 0, 1, 0, 0, 0, 51, 9, 147, 204,
    207, 49, 17, 249, 183, 1, 97, 91, 139, 62, 193, 125, 0,
];

// Its rows stand in the order of the key.
const PART_BYTES: &'static [u8] = &[
    b'C', b'H', b'V', b'P', b'A', b'R', b'T', b'1', 46, 0, 0, 0, 0, 0, 0, 0, 99, 245, 128, 122,
    136, 23, 247, 178, 2, 0, 0, 0, 4, 4, 2, 0, 0, 0, 0, 0, 0, 0, 1, 0, 0, 0, 0, 0, 0, 0, 2, 0, 0,
    0, 0, 0, 0, 0, 10, 0, 0, 0, 0, 0, 0, 0, 20, 0, 0, 0, 0, 0, 0, 0,
];

fn has_worked_bytes(alloc: Global) -> bool {
    match first_run(alloc) {
        Some(site) => {
            site.file(CATALOG) == CATALOG_BYTES
                && site.file(LOG) == LOG_BYTES
                && site.file(PART) == PART_BYTES
        }
        None => false,
    }
}

#[test]
fn files_have_the_worked_bytes(rt: HostRuntime) {
    assert!(rt; has_worked_bytes(rt.alloc()));
}

// The same rows in another order are another block.
const AGAIN: &'static [u8] =
    b"INSERT INTO s VALUES (2,20),(1,10); INSERT INTO s VALUES (1,10),(2,20);";

// A later run has the ids that the runs before it left.
fn is_skipped_later(alloc: Global) -> Option<bool> {
    let first = first_run(alloc)?;
    let said = b"@0 Ok. 0 written, 1 skipped\n@0 Ok. 1 written, 0 skipped\n";
    let second = later(alloc, first, Pick::New, AGAIN, said)?;
    let said = b"1\t1\t0\t2\n2\t2\t0\t2\n@0 Ok. 2 rows\n";
    let third = later(alloc, second, Pick::Old, b"SHOW PARTS s", said);
    Some(third.is_some())
}

#[test]
fn a_later_run_skips_a_block_that_is_sent_again(rt: HostRuntime) {
    assert!(rt; is_skipped_later(rt.alloc()) == Some(true));
}

// Changes bytes of a file from a place on; without bytes the file is gone.
fn is_changed(site: &mut MemSite, f: FileId, at: u64, bytes: &[u8]) -> bool {
    if bytes.is_empty() {
        return site.discard(f).is_ok();
    }
    at <= site.file(f).len() as u64 && site.put(f, at, bytes).is_ok()
}

// What is changed of the files that the first run leaves, and the line that tells it.
const CHANGES: &'static [(FileId, u64, &'static [u8], &'static [u8])] = &[
    // A length past the end, a letter that is none of the canonical text, and the text a second time.
    (CATALOG, 2, b"\x01", b"Damaged catalog at 1\n"),
    (CATALOG, 5, b"c", b"Damaged catalog at 1\n"),
    (CATALOG, 123, CATALOG_BYTES, b"Damaged catalog at 124\n"),
    // A second frame that is none, and a part that is not the next one.
    (LOG, 42, b"\x01\x02", b"Damaged log of s at 43\n"),
    (LOG, 6, b"\x09", b"Damaged log of s at 1\n"),
    // Another hash, and no file.
    (
        PART,
        16,
        b"\x62",
        b"Damaged part 8 of s: kept b2f717887a80f562, found b2f717887a80f563\n",
    ),
    (PART, 0, b"", b"Damaged part 8 of s: shape\n"),
];

// Damage ends the run: nothing else is said.
fn is_damaged(alloc: Global, f: FileId, at: u64, bytes: &[u8], line: &[u8]) -> bool {
    let script = b"SELECT * FROM s; INSERT INTO s VALUES (3,30)";
    match first_run(alloc) {
        Some(mut site) => {
            is_changed(&mut site, f, at, bytes)
                && ends(alloc, &mut site, script, Status::Damaged, line)
        }
        None => false,
    }
}

#[test]
fn damage_is_told_and_ends_the_run(rt: HostRuntime) {
    for change in CHANGES {
        assert!(rt; is_damaged(rt.alloc(), change.0, change.1, change.2, change.3));
    }
}

// A pull or a call of the site that fails. The fourteenth call says the first Ok.
const FAULTS: &'static [(u64, u64, Status)] = &[
    (1, 0, Status::SourceFault),
    (0, 1, Status::DiskFault),
    (0, 5, Status::DiskFault),
    (0, 14, Status::SayFault),
];

fn ends_by_a_fault(alloc: Global, pull: u64, call: u64, status: Status) -> bool {
    let mut site = site_failing_at(alloc, call);
    called(alloc, &mut site, &["run"], FIRST, pull) == Some(status) && site.said().is_empty()
}

#[test]
fn a_fault_ends_the_run(rt: HostRuntime) {
    for fault in FAULTS {
        assert!(rt; ends_by_a_fault(rt.alloc(), fault.0, fault.1, fault.2));
    }
}

const OTHER_WORDS: &'static [&'static [&'static str]] = &[
    &[],
    &["Run"],
    &["run", "run"],
    &["run", "--"],
    &["run", "--turns", "16"],
    &["run", "--turns", "0", "--turns", "1"],
    &["--help"],
    &["bench"],
];

fn are_refused(alloc: Global, words: &[&str]) -> bool {
    let mut site = site_failing_at(alloc, 0);
    called(alloc, &mut site, words, FIRST, 0) == Some(Status::BadWords) && site.said().is_empty()
}

#[test]
fn other_words_are_refused(rt: HostRuntime) {
    for words in OTHER_WORDS {
        assert!(rt; are_refused(rt.alloc(), words));
    }
}

// A script that is one comment.
fn ends_behind_dashes(alloc: Global, count: usize, status: Status) -> bool {
    let mut site = site_failing_at(alloc, 0);
    match Vec::from_elem(alloc, b'-', count) {
        Ok(script) => ends(alloc, &mut site, &script, status, b""),
        Err(_) => false,
    }
}

#[test]
fn a_script_has_at_most_64_mebibytes(rt: HostRuntime) {
    assert!(rt; ends_behind_dashes(rt.alloc(), 67_108_864, Status::Done));
    assert!(rt; ends_behind_dashes(rt.alloc(), 67_108_865, Status::TooLong));
}

const PICKS: &'static [Pick] = &[
    Pick::Old,
    Pick::New,
    Pick::Torn { byte: 0 },
    Pick::Torn { byte: 1 },
];

// Sends the insert again: each row stands once, and no block is written again whose reply was said.
fn stands_once(alloc: Global, site: &mut MemSite, was_answered: bool) -> bool {
    let skipped = b"@0 Refused 4 NameTaken\n@0 Ok. 0 written, 2 skipped\n";
    let rows = b"1\t10\n2\t20\n@0 Ok. 2 rows\n";
    let _ = run(alloc, site, BLOCKS);
    site.said().ends_with(rows) && (!was_answered || site.said().starts_with(skipped))
}

// A call of a run fails, or the site is stopped there; and it crashes.
fn is_mended(alloc: Global, call: u64, stops: bool, pick: Pick) -> bool {
    let mut site = site_failing_at(alloc, call);
    if stops {
        site.stop_at(call);
    }
    let _ = run(alloc, &mut site, BLOCKS);
    let was_answered = site
        .said()
        .starts_with(b"@0 Ok.\n@0 Ok. 2 written, 0 skipped\n");
    match site.crash(pick) {
        Ok(mut left) => stands_once(alloc, &mut left, was_answered),
        Err(_) => false,
    }
}

fn is_mended_at(alloc: Global, call: u64) -> bool {
    for pick in PICKS {
        if !is_mended(alloc, call, false, *pick) || !is_mended(alloc, call, true, *pick) {
            return false;
        }
    }
    true
}

#[test]
fn an_insert_that_is_sent_again_after_a_crash_stands_once(rt: HostRuntime) {
    for call in 1..48 {
        assert!(rt; is_mended_at(rt.alloc(), call), "call {call}");
    }
}

// A table, and a thousand inserts of one row.
fn thousand(alloc: Global) -> Result<Vec<u8>, AllocError> {
    let mut script =
        b"CREATE TABLE s (k UInt64) ENGINE = MergeTree ORDER BY k SETTINGS non_replicated_deduplication_window = 1000;".to_vec(
            alloc,
        )?;
    for k in 0..1000 {
        let insert = format!(in alloc; "INSERT INTO s VALUES ({k});")?;
        script.extend_from_slice(insert.as_bytes())?;
    }
    Ok(script)
}

// In a later run the first block is still in the window, and each has its part.
fn is_found_again(alloc: Global, site: MemSite) -> bool {
    match site.crash(Pick::Old) {
        Ok(mut left) => {
            run(alloc, &mut left, b"INSERT INTO s VALUES (0); SHOW PARTS s;") == Some(Status::Done)
                && left
                    .said()
                    .starts_with(b"@0 Ok. 0 written, 1 skipped\n1\t1\t0\t1\n")
                && left
                    .said()
                    .ends_with(b"1000\t1000\t0\t1\n@0 Ok. 1000 rows\n")
        }
        Err(_) => false,
    }
}

fn are_found_again(alloc: Global) -> bool {
    let mut site = site_failing_at(alloc, 0);
    match thousand(alloc) {
        Ok(script) => {
            run(alloc, &mut site, &script) == Some(Status::Done) && is_found_again(alloc, site)
        }
        Err(_) => false,
    }
}

#[test]
fn a_thousand_inserts_are_found_again(rt: HostRuntime) {
    assert!(rt; are_found_again(rt.alloc()));
}
