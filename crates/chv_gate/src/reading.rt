// The frames of a log, one after the other.
ghost use Rattle.std.specs.Prelude.{◌≡◌, ◌≤◌, ◌<◌, ◌+◌, ◌^◌, ℕ, length, IfOk, IfErr, IfSome, IsNone, IsErrOf};
ghost use Rattle.chv_site.specs.Outside.{bytes_in};
ghost use Rattle.chv_site.specs.Effects.{OnlyReads};
ghost use Rattle.chv_gate.specs.Reading.{Reads, IsDamage, GoesOn, HasLength, IsAnnounced};

use crate::GateFault;
use crate::framing::{CLOSED, MAX_PAYLOAD, OPEN};
use byteorder::{ByteOrder, LittleEndian};
use chv_site::{FileId, Site};
use std::alloc::Global;

/// What stands behind a gate of a log.
#[derive(Debug, Drop)]
pub enum GateRead {
    /// Nothing, since the gate is not open: the log ends with it.
    End { gate: u64 },
    /// A frame: its payload, and the place of the gate behind it.
    Body { payload: Vec<u8>, next: u64 },
}

/// Reads what stands behind a gate of a log, whose first gate is at place 0. It changes no file.
pub fn step<W: Site>(
    alloc: Global,
    site: &mut W,
    f: FileId,
    gate: u64,
) -> Result<GateRead, GateFault>
    ensures read { W.tells → IfOk result (λ read. Reads gate (bytes_in (W.outside site.old) f) read) }
    ensures damaged { W.tells → IfErr result (λ fault. IsDamage gate (bytes_in (W.outside site.old) f) fault) }
    ensures forward { IfOk result (λ read. GoesOn gate read) }
    ensures keeps { OnlyReads W.tells (IsErrOf result GateFault.Failed) (W.outside site.old) (W.outside site.new) }
{
    let file_size = site.size(f)?;
    if file_size <= 1 || file_size <= gate {
        return Ok(GateRead::End { gate });
    }
    let mut head = [CLOSED; 5];
    let count = site.fetch(f, gate, &mut head)?;
    if count == 0 || head[0] != OPEN {
        return Ok(GateRead::End { gate });
    }
    match payload_size(&head[1..count], file_size - gate - 1) {
        Some(size) => read_body(alloc, site, f, gate, size),
        None => Err(GateFault::Damaged { at: gate + 1 }),
    }
}

/// The size of the payload that a frame begins with, where it is one and a gate stands behind the frame.
/// `left` counts the bytes from the frame on.
fn payload_size(frame: &[u8], left: u64) -> Option<u64>
    ensures some { IfSome result (λ size. HasLength size frame.now left) }
    ensures none { IsNone result → (size : ℕ) → HasLength size frame.now left → ⊥ }
{
    if frame.len() < 4 {
        return None;
    }
    let size = LittleEndian::read_u32(frame) as u64;
    if size == 0 || size > MAX_PAYLOAD || left <= 4 + size {
        return None;
    }
    Some(size)
}

/// Reads the payload of a size that stands behind an open gate and its length.
fn read_body<W: Site>(
    alloc: Global,
    site: &mut W,
    f: FileId,
    gate: u64,
    size: u64,
) -> Result<GateRead, GateFault>
    requires sized { (1 ≤ size) × (size ≤ 2 ^ 30) }
    requires room { gate + 5 + size < 2 ^ 64 }
    requires announced { W.tells → IsAnnounced gate size (bytes_in (W.outside site.old) f) }
    ensures read { W.tells → IfOk result (λ read. Reads gate (bytes_in (W.outside site.old) f) read) }
    ensures damaged { W.tells → IfErr result (λ fault. IsDamage gate (bytes_in (W.outside site.old) f) fault) }
    ensures forward { IfOk result (λ read. GoesOn gate read) }
    ensures keeps { OnlyReads W.tells (IsErrOf result GateFault.Failed) (W.outside site.old) (W.outside site.new) }
{
    let mut payload = vec![in alloc; 0u8; size as usize]?;
    let count = site.fetch(f, gate + 5, &mut payload)?;
    if count < payload.len() {
        return Err(GateFault::Damaged { at: gate + 1 });
    }
    Ok(GateRead::Body {
        payload,
        next: gate + 5 + size,
    })
}
