// Commits, one behind the other.
use chv_commit::{Commit, Ids, MAX_ENTRIES, PartRow, Replay};
use chv_sip::BlockId;
use std::alloc::{AllocError, Global};
use std::test::Fail;

// New entries with ids from one number to another, in a part of ten rows.
fn add(alloc: Global, part: u64, from: u64, to: u64) -> Result<Commit, AllocError> {
    let mut ids = Ids::new(alloc);
    for first in from..=to {
        ids.push(BlockId { first, second: 7 })?;
    }
    Ok(Commit::Add {
        part,
        rows: 10,
        ids,
    })
}

// Takes new entries.
fn takes_add(
    alloc: Global,
    replay: &mut Replay,
    part: u64,
    from: u64,
    to: u64,
) -> Result<bool, AllocError> {
    replay.take(&add(alloc, part, from, to)?)
}

// The parts of the entries from one to another become one part of twenty rows.
fn takes_merge(
    replay: &mut Replay,
    lo: u64,
    hi: u64,
    part: u64,
    level: u64,
) -> Result<bool, AllocError> {
    replay.take(&Commit::Merge {
        lo,
        hi,
        part,
        level,
        rows: 20,
    })
}

// A live part.
fn row(lo: u64, hi: u64, level: u64, part: u64, rows: u64) -> PartRow {
    PartRow {
        lo,
        hi,
        level,
        part,
        rows,
    }
}

// Three parts, of the entries 1, 2 to 4, and 5; the next part is 11.
fn three_parts(alloc: Global, window: u32) -> Result<Replay, AllocError> {
    let mut replay = Replay::new(alloc, window)?;
    for (part, from, to) in [(8, 1, 1), (9, 2, 4), (10, 5, 5)] {
        takes_add(alloc, &mut replay, part, from, to)?;
    }
    Ok(replay)
}

// Whether there are still the three parts.
fn is_as_before(replay: &Replay) -> bool {
    let rows = [
        row(1, 1, 0, 8, 10),
        row(2, 4, 0, 9, 10),
        row(5, 5, 0, 10, 10),
    ];
    replay.layout() == rows.as_slice() && replay.entries() == 5 && replay.next_part() == 11
}

// Whether two of the three became one.
fn is_merged(replay: &Replay) -> bool {
    let rows = [row(1, 4, 1, 11, 20), row(5, 5, 0, 10, 10)];
    replay.layout() == rows.as_slice() && replay.entries() == 5 && replay.next_part() == 12
}

#[test]
fn two_parts_become_one(rt: HostRuntime) -> Result<(), Fail> {
    let mut replay = three_parts(rt.alloc(), 2)?;
    assert!(rt; is_as_before(&replay));
    assert!(rt; takes_merge(&mut replay, 1, 4, 11, 1)? && is_merged(&replay));
    assert!(rt; replay.into_layout().len() == 2);
    Ok(())
}

// Ten parts, of which eight in the middle become one, and then all that are left.
fn merged_twice(alloc: Global) -> Result<Replay, AllocError> {
    let mut replay = Replay::new(alloc, 0)?;
    for entry in 1..11 {
        takes_add(alloc, &mut replay, 7 + entry, entry, entry)?;
    }
    takes_merge(&mut replay, 2, 9, 18, 1)?;
    takes_merge(&mut replay, 1, 10, 19, 2)?;
    Ok(replay)
}

#[test]
fn all_parts_become_one(rt: HostRuntime) -> Result<(), Fail> {
    let one = [row(1, 10, 2, 19, 20)];
    assert!(rt; merged_twice(rt.alloc())?.layout() == one.as_slice());
    Ok(())
}

// A part behind the next, a part that was, and no entry.
#[test]
fn entries_that_do_not_fit_change_nothing(rt: HostRuntime) -> Result<(), Fail> {
    let mut replay = three_parts(rt.alloc(), 100)?;
    for (part, from, to) in [(12, 6, 6), (10, 6, 6), (11, 6, 5)] {
        let taken = takes_add(rt.alloc(), &mut replay, part, from, to)?;
        assert!(rt; !taken && is_as_before(&replay), "part {part}");
    }
    Ok(())
}

// A part that was, one part alone, the level of the parts, two levels above them, a begin and an end within a part, and an
// end in front of the begin.
#[test]
fn merges_that_do_not_fit_change_nothing(rt: HostRuntime) -> Result<(), Fail> {
    let mut replay = three_parts(rt.alloc(), 100)?;
    for (lo, hi, part, level) in [
        (1, 4, 10, 1),
        (2, 4, 11, 1),
        (1, 4, 11, 0),
        (1, 4, 11, 2),
        (3, 5, 11, 1),
        (1, 3, 11, 1),
        (5, 1, 11, 1),
    ] {
        let taken = takes_merge(&mut replay, lo, hi, part, level)?;
        assert!(rt; !taken && is_as_before(&replay), "from {lo} to {hi}");
    }
    Ok(())
}

// Three parts, and one entry more for which room is made before.
fn four_parts(alloc: Global) -> Result<Replay, AllocError> {
    let mut replay = three_parts(alloc, 2)?;
    replay.reserve(1)?;
    if replay.entries() < MAX_ENTRIES {
        replay.take_one(
            30,
            BlockId {
                first: 6,
                second: 7,
            },
        );
    }
    Ok(replay)
}

#[test]
fn one_entry_is_taken_into_its_room(rt: HostRuntime) -> Result<(), Fail> {
    let replay = four_parts(rt.alloc())?;
    assert!(rt; replay.layout().last() == Some(&row(6, 6, 0, 11, 30)));
    assert!(rt; are_ids(replay.ids(rt.alloc())?.as_slice(), &[5, 6]));
    Ok(())
}

// The ids that are kept of those of the three parts.
fn kept_ids(alloc: Global, window: u32) -> Result<Ids, AllocError> {
    three_parts(alloc, window)?.ids(alloc)
}

fn are_ids(ids: &[BlockId], firsts: &[u64]) -> bool {
    let mut pairs = ids.iter().zip(firsts);
    ids.len() == firsts.len() && pairs.all(|(id, first)| id.first == *first)
}

#[test]
fn as_many_ids_are_kept_as_the_window_has(rt: HostRuntime) -> Result<(), Fail> {
    let cases: [(u32, &[u64]); 3] = [(0, &[]), (2, &[4, 5]), (100, &[1, 2, 3, 4, 5])];
    for (window, kept) in cases {
        assert!(rt;
            are_ids(kept_ids(rt.alloc(), window)?.as_slice(), kept),
            "under {window}"
        );
    }
    Ok(())
}
