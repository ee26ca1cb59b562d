// Commits as payloads.
ghost use Rattle.std.specs.Prelude.{◌≡◌, ◌++◌, ◌∷◌, [], ◌<◌, ◌≤◌, ◌^◌, length, IfOk, OnOk};
ghost use Rattle.std.specs.Int.{w32, to_le_bytes};
ghost use Rattle.std.specs.List.{flat_map};
ghost use Rattle.chv_commit.specs.Commits.{commit_spelling, id_spelling, IsCommit};
ghost use Rattle.chv_commit.specs.Replays.{merge_of};
ghost use Rattle.chv_commit.specs.declared.commit.Commit.TheVariants.{Add, Merge};

use crate::{Commit, PartRow};
use chv_sip::BlockId;
use sqlite_items::Items;
use std::alloc::{AllocError, Global};

// What the payload of new entries begins with.
const NEW_ENTRIES: u8 = 1;

// What the payload of parts that become one begins with.
const ONE_PART: u8 = 2;

/// The payload of a commit.
pub fn spell(alloc: Global, commit: &Commit) -> Result<Items<u8>, AllocError>
    requires { IsCommit commit.now }
    ensures { IfOk result (λ payload. payload ≡ commit_spelling commit.now) }
{
    match commit {
        Commit::Add { part, rows, ids } => spell_add(alloc, *part, *rows, ids.as_slice()),
        Commit::Merge {
            lo,
            hi,
            part,
            level,
            rows,
        } => spell_merge(alloc, *lo, *hi, *part, *level, *rows),
    }
}

/// The payload of one new entry behind its length, 37 bytes, and a closed gate behind it: a part, the number of its rows,
/// and the id of the entry. It takes no memory.
pub fn frame_of_one(part: u64, rows: u64, id: BlockId) -> [u8; 42]
    ensures { result ≡ to_le_bytes w32 37 ++ commit_spelling (Add part rows (id ∷ [])) ++ 0 ∷ [] }
{
    let mut frame = [0; 42];
    frame[0] = 37;
    frame[4] = NEW_ENTRIES;
    frame[5..13].copy_from_slice(&part.to_le_bytes());
    frame[13..21].copy_from_slice(&rows.to_le_bytes());
    frame[21] = 1;
    frame[25..33].copy_from_slice(&id.first.to_le_bytes());
    frame[33..41].copy_from_slice(&id.second.to_le_bytes());
    frame
}

/// The payload of parts that become one behind its length, 41 bytes, and a closed gate behind it: the entries from the first
/// to the last, the part, its level and the number of its rows. It takes no memory.
pub fn frame_of_merge(row: &PartRow) -> [u8; 46]
    ensures { result ≡ to_le_bytes w32 41 ++ commit_spelling (merge_of row.now) ++ 0 ∷ [] }
{
    let mut frame = [0; 46];
    frame[0] = 41;
    frame[4] = ONE_PART;
    frame[5..13].copy_from_slice(&row.lo.to_le_bytes());
    frame[13..21].copy_from_slice(&row.hi.to_le_bytes());
    frame[21..29].copy_from_slice(&row.part.to_le_bytes());
    frame[29..37].copy_from_slice(&row.level.to_le_bytes());
    frame[37..45].copy_from_slice(&row.rows.to_le_bytes());
    frame
}

// The payload of new entries.
fn spell_add(alloc: Global, part: u64, rows: u64, ids: &[BlockId]) -> Result<Items<u8>, AllocError>
    requires { length ids.now < 2 ^ 32 }
    ensures { IfOk result (λ payload. payload ≡ commit_spelling (Add part rows ids.now)) }
{
    let mut bytes = Vec::with_capacity(alloc, 21 + 16 * ids.len())?;
    bytes.push(NEW_ENTRIES)?;
    bytes.extend_from_slice(&part.to_le_bytes())?;
    bytes.extend_from_slice(&rows.to_le_bytes())?;
    bytes.extend_from_slice(&(ids.len() as u32).to_le_bytes())?;
    put_ids(&mut bytes, ids)?;
    Ok(Items::from_vec(bytes))
}

// Puts ids behind bytes.
fn put_ids(bytes: &mut Vec<u8>, ids: &[BlockId]) -> Result<(), AllocError>
    ensures { OnOk result (bytes.new.items ≡ bytes.old.items ++ flat_map id_spelling ids.now) }
{
    for id in ids {
        put_id(bytes, id)?;
    }
    Ok(())
}

// Puts an id behind bytes.
fn put_id(bytes: &mut Vec<u8>, id: &BlockId) -> Result<(), AllocError>
    ensures { OnOk result (bytes.new.items ≡ bytes.old.items ++ id_spelling id.now) }
{
    bytes.extend_from_slice(&id.first.to_le_bytes())?;
    bytes.extend_from_slice(&id.second.to_le_bytes())
}

// The payload of parts that become one.
fn spell_merge(
    alloc: Global,
    lo: u64,
    hi: u64,
    part: u64,
    level: u64,
    rows: u64,
) -> Result<Items<u8>, AllocError>
    ensures { IfOk result (λ payload. payload ≡ commit_spelling (Merge lo hi part level rows)) }
{
    let mut bytes = Vec::with_capacity(alloc, 41)?;
    bytes.push(ONE_PART)?;
    bytes.extend_from_slice(&lo.to_le_bytes())?;
    bytes.extend_from_slice(&hi.to_le_bytes())?;
    bytes.extend_from_slice(&part.to_le_bytes())?;
    bytes.extend_from_slice(&level.to_le_bytes())?;
    bytes.extend_from_slice(&rows.to_le_bytes())?;
    Ok(Items::from_vec(bytes))
}
