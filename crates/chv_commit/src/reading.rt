// Payloads as commits.
ghost use Rattle.std.specs.Prelude.{◌≡◌, ◌≢◌, ◌++◌, ◌+◌, ◌*◌, ◌<◌, ◌≤◌, ◌^◌, ℕ, List, length, drop, IfOk, IfSome, IsErr, IsNone, IsTrue, ◌↔◌, ◌∷◌};
ghost use Rattle.std.specs.Int.{w32, w64, to_le_bytes};
ghost use Rattle.std.specs.List.{All, flat_map};
ghost use Rattle.chv_sip.specs.declared.block_id.BlockId.{BlockId as Id};
ghost use Rattle.chv_commit.specs.Commits.{commit_spelling, id_spelling, AreWords, IsCommit, TellsItsIds};
ghost use Rattle.chv_commit.specs.declared.commit.Commit.{Commit as Seen};
ghost use Rattle.chv_commit.specs.declared.commit.Commit.TheVariants.{Add, Merge};

use crate::{Commit, Ids};
use byteorder::{ByteOrder, LittleEndian};
use chv_sip::BlockId;
use std::alloc::{AllocError, Global};

/// The commit of a payload; None exactly where it is that of none. No number in it is trusted: memory is taken for as many
/// ids as the payload has, and only where it tells so many.
pub fn read_commit(alloc: Global, payload: &[u8]) -> Result<Option<Commit>, AllocError>
    ensures some { IfOk result (λ read. IfSome read (λ commit. IsCommit commit × (payload.now ≡ commit_spelling commit))) }
    ensures none { IfOk result (λ read. IsNone read → (commit : Seen) → IsCommit commit → payload.now ≢ commit_spelling commit) }
    ensures err { IsErr result → TellsItsIds (drop 1 payload.now) }
{
    match payload.split_first() {
        Some((&1, rest)) => read_add(alloc, rest),
        Some((&2, rest)) => Ok(read_merge(rest)),
        _ => Ok(None),
    }
}

// The new entries that are spelled behind the first byte.
fn read_add(alloc: Global, bytes: &[u8]) -> Result<Option<Commit>, AllocError>
    ensures some { IfOk result (λ read. IfSome read (λ commit. IsCommit commit × (1 ∷ bytes.now ≡ commit_spelling commit))) }
    ensures none { IfOk result (λ read. IsNone read → (part rows : ℕ) (ids : List Id) → IsCommit (Add part rows ids) → 1 ∷ bytes.now ≢ commit_spelling (Add part rows ids)) }
    ensures err { IsErr result → TellsItsIds bytes.now }
{
    if bytes.len() < 20 {
        return Ok(None);
    }
    let (part, rest) = split_number(bytes);
    let (rows, rest) = split_number(rest);
    let (count, rest) = split_count(rest);
    if !are_ids(count, rest.len()) {
        return Ok(None);
    }
    let ids = read_ids(alloc, rest, count)?;
    Ok(Some(Commit::Add { part, rows, ids }))
}

// Whether so many ids, of which there is one at least, have so many bytes.
fn are_ids(count: usize, size: usize) -> bool
    requires { count < 2 ^ 32 }
    ensures { IsTrue result ↔ (1 ≤ count) × (size ≡ 16 * count) }
{
    count >= 1 && size == 16 * count
}

// So many ids.
fn read_ids(alloc: Global, bytes: &[u8], count: usize) -> Result<Ids, AllocError>
    requires { length bytes.now ≡ 16 * count }
    ensures count { IfOk result (λ ids. length ids ≡ count) }
    ensures ids { IfOk result (λ ids. bytes.now ≡ flat_map id_spelling ids) }
    ensures words { IfOk result (λ ids. All AreWords ids) }
{
    let mut ids = Vec::with_capacity(alloc, count)?;
    let mut rest = bytes;
    for _ in 0..count {
        let (first, behind) = split_number(rest);
        let (second, behind) = split_number(behind);
        ids.push(BlockId { first, second })?;
        rest = behind;
    }
    Ok(Ids::from_vec(ids))
}

// The parts that become one, which are spelled behind the first byte.
fn read_merge(bytes: &[u8]) -> Option<Commit>
    ensures some { IfSome result (λ commit. IsCommit commit × (2 ∷ bytes.now ≡ commit_spelling commit)) }
    ensures none { IsNone result → (lo hi part level rows : ℕ) → 2 ∷ bytes.now ≢ commit_spelling (Merge lo hi part level rows) }
{
    if bytes.len() != 40 {
        return None;
    }
    let (lo, rest) = split_number(bytes);
    let (hi, rest) = split_number(rest);
    let (part, rest) = split_number(rest);
    let (level, rest) = split_number(rest);
    let (rows, _) = split_number(rest);
    Some(Commit::Merge {
        lo,
        hi,
        part,
        level,
        rows,
    })
}

// The number of eight bytes that bytes begin with, the low byte first, and the bytes behind it.
fn split_number(bytes: &[u8]) -> (u64, &[u8])
    requires { 8 ≤ length bytes.now }
    ensures length { length bytes.now ≡ 8 + length result.1.now }
    ensures split { bytes.now ≡ to_le_bytes w64 result.0 ++ result.1.now }
{
    (LittleEndian::read_u64(bytes), &bytes[8..])
}

// The number of four bytes that bytes begin with, the low byte first, and the bytes behind it.
fn split_count(bytes: &[u8]) -> (usize, &[u8])
    requires { 4 ≤ length bytes.now }
    ensures small { result.0 < 2 ^ 32 }
    ensures length { length bytes.now ≡ 4 + length result.1.now }
    ensures split { bytes.now ≡ to_le_bytes w32 result.0 ++ result.1.now }
{
    (LittleEndian::read_u32(bytes) as usize, &bytes[4..])
}
