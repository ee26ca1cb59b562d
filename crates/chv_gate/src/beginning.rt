// How a log is begun.
ghost use Rattle.std.specs.Prelude.{◌≡◌, ◌≤◌, List, ℕ, length, IfOk, OnOk, IsErr};
ghost use Rattle.chv_site.specs.Files.{settled};
ghost use Rattle.chv_site.specs.Outside.{bytes_in};
ghost use Rattle.chv_site.specs.Effects.{OnlyReads, ChangesOnly};
ghost use Rattle.chv_gate.specs.GateLog.{HasFrames, is_torn, begun};
ghost use Rattle.chv_gate.specs.Crashes.{Leaves, LeavesFrames};

use crate::framing::{CLOSED, OPEN};
use crate::writing::write_synced;
use chv_site::{Failed, FileId, Site};

/// Syncs a log, and makes it ready: where it is empty or a single open gate, which only a crash leaves, it becomes one
/// closed gate. After an `Err` it may be begun again.
pub fn begin<W: Site>(site: &mut W, f: FileId) -> Result<(), Failed>
    ensures begun { W.tells → OnOk result ((W.outside site.new).files f ≡ settled (begun (bytes_in (W.outside site.old) f))) }
    // A crash at any moment of the call leaves the frames from before it.
    ensures during { W.tells → (payloads : List (List ℕ)) → LeavesFrames payloads ((W.outside site.old).files f)
        → Leaves f (HasFrames payloads) (W.outside site.old) (W.outside site.new) }
    // And of a log of which it left at most one byte before, it leaves no more.
    ensures short { W.tells → ((W.outside site.old).files f).most ≤ 1 → Leaves f (λ bytes. length bytes ≤ 1) (W.outside site.old) (W.outside site.new) }
    // For every answer a log of two bytes or more keeps its bytes.
    ensures kept { W.tells → 2 ≤ length (bytes_in (W.outside site.old) f) → bytes_in (W.outside site.new) f ≡ bytes_in (W.outside site.old) f }
    ensures keeps { ChangesOnly W.tells (IsErr result) f (W.outside site.old) (W.outside site.new) }
{
    site.sync(f)?;
    if is_torn(site, f)? {
        return write_synced(site, f, 0, &[CLOSED]);
    }
    Ok(())
}

/// Whether a log is empty, or a single open gate.
fn is_torn<W: Site>(site: &mut W, f: FileId) -> Result<bool, Failed>
    ensures torn { W.tells → IfOk result (λ torn. torn ≡ is_torn (bytes_in (W.outside site.old) f)) }
    ensures keeps { OnlyReads W.tells (IsErr result) (W.outside site.old) (W.outside site.new) }
{
    let mut head = [CLOSED; 2];
    let count = site.fetch(f, 0, &mut head)?;
    Ok(count == 0 || count == 1 && head[0] == OPEN)
}
