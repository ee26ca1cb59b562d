// Payloads worked by hand.
ghost use Rattle.std.specs.Prelude.{IfOk};
ghost use Rattle.chv_commit.specs.Commits.{IsCommit};

use chv_commit::{Commit, Ids, frame_of_one, read_commit, spell};
use chv_sip::BlockId;
use chv_types::Bytes;
use std::alloc::{AllocError, Global};
use std::test::Fail;

// New entries with the part 8, which holds two rows: one entry.
const ONE_ADD: [u8; 37] = [
    1, 8, 0, 0, 0, 0, 0, 0, 0, 2, 0, 0, 0, 0, 0, 0, 0, 1, 0, 0, 0, 0xc0, 0x29, 0xa8, 0x62, 0x4b,
    0x75, 0x10, 0x83, 0xf5, 0xa5, 0x2e, 0xec, 0x24, 0x03, 0xd2, 0x4e,
];

// The parts of the entries from 1 to 8 became the part 16 of level 1, which holds eight rows.
const ONE_MERGE: [u8; 41] = [
    2, 1, 0, 0, 0, 0, 0, 0, 0, 8, 0, 0, 0, 0, 0, 0, 0, 16, 0, 0, 0, 0, 0, 0, 0, 1, 0, 0, 0, 0, 0,
    0, 0, 8, 0, 0, 0, 0, 0, 0, 0,
];

const ID: BlockId = BlockId {
    first: 0x8310_754b_62a8_29c0,
    second: 0x4ed2_0324_ec2e_a5f5,
};

// The commit of the first worked payload.
fn one_add(alloc: Global) -> Result<Commit, AllocError>
    ensures { IfOk result IsCommit }
{
    let mut ids = Ids::new(alloc);
    ids.push(ID)?;
    Ok(Commit::Add {
        part: 8,
        rows: 2,
        ids,
    })
}

const MERGE: Commit = Commit::Merge {
    lo: 1,
    hi: 8,
    part: 16,
    level: 1,
    rows: 8,
};

#[test]
fn the_worked_bytes_of_commits(rt: HostRuntime) -> Result<(), Fail> {
    assert!(rt; spell(rt.alloc(), &one_add(rt.alloc())?)?.as_slice() == ONE_ADD.as_slice());
    assert!(rt; spell(rt.alloc(), &MERGE)?.as_slice() == ONE_MERGE.as_slice());
    Ok(())
}

// The frame that a delivery writes: the length of the payload, the payload, and a closed gate.
fn is_framed(frame: &[u8; 42]) -> bool {
    frame[..4] == [37, 0, 0, 0][..] && frame[4..41] == ONE_ADD[..] && frame[41] == 0
}

#[test]
fn the_worked_bytes_of_a_frame(rt: HostRuntime) {
    assert!(rt; is_framed(&frame_of_one(8, 2, ID)));
}

// What a payload reads as, spelled again; nothing where it is that of no commit.
fn spelled_again(alloc: Global, payload: &[u8]) -> Result<Bytes, AllocError> {
    match read_commit(alloc, payload)? {
        Some(commit) => spell(alloc, &commit),
        None => Ok(Bytes::new(alloc)),
    }
}

#[test]
fn commits_are_read_back(rt: HostRuntime) -> Result<(), Fail> {
    for bytes in [ONE_ADD.as_slice(), ONE_MERGE.as_slice()] {
        assert!(rt; spelled_again(rt.alloc(), bytes)?.as_slice() == bytes);
    }
    Ok(())
}

// Whether a payload is read, and is that of no commit.
fn is_none(alloc: Global, payload: &[u8]) -> bool {
    match read_commit(alloc, payload) {
        Ok(read) => read.is_none(),
        Err(_) => false,
    }
}

// A payload that is cut short, and one that has a byte more.
#[test]
fn a_commit_is_read_whole(rt: HostRuntime) {
    for end in 0..37 {
        assert!(rt; is_none(rt.alloc(), &ONE_ADD[..end]), "up to {end}");
    }
    for end in 0..41 {
        assert!(rt; is_none(rt.alloc(), &ONE_MERGE[..end]), "up to {end}");
    }
    let mut longer = [0; 38];
    longer[..37].copy_from_slice(&ONE_ADD);
    assert!(rt; is_none(rt.alloc(), &longer));
}

// The payload of new entries with another byte at a place.
fn changed(place: usize, byte: u8) -> [u8; 37] {
    let mut bytes = ONE_ADD;
    if let Some(changed) = bytes.get_mut(place) {
        *changed = byte;
    }
    bytes
}

// Another kind of commit, and another number of ids than there are, none among them.
#[test]
fn another_payload_is_no_commit(rt: HostRuntime) {
    for (place, byte) in [(0, 0), (0, 2), (0, 3), (17, 0), (17, 2), (20, 255)] {
        assert!(rt;
            is_none(rt.alloc(), &changed(place, byte)),
            "with {byte} at {place}"
        );
    }
    assert!(rt; is_none(rt.alloc(), &changed(17, 0)[..21]));
}
