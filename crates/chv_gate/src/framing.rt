// The bytes of a frame.
ghost use Rattle.std.specs.Prelude.{IfOk, ◌≡◌};
ghost use Rattle.chv_gate.specs.GateLog.{IsPayload, frame_of};

use byteorder::{ByteOrder, LittleEndian};
use std::alloc::{AllocError, Global};

/// The byte of an open gate. Any other byte is a closed one.
pub const OPEN: u8 = 1;

/// The byte that is written for a closed gate.
pub const CLOSED: u8 = 0;

/// The most bytes that a payload has, 1 GiB.
pub const MAX_PAYLOAD: u64 = 1 << 30;

/// The bytes that [`crate::Log::append`] takes for a payload: its length in four bytes, the payload, and a closed gate.
#[tactic(auto, unfolding(crate::specs::GateLog::body))]
pub fn frame(alloc: Global, payload: &[u8]) -> Result<Vec<u8>, AllocError>
    requires { IsPayload payload.now }
    ensures { IfOk result (λ v. v.items ≡ frame_of payload.now) }
{
    let mut size = [0u8; 4];
    LittleEndian::write_u32(&mut size, payload.len() as u32);
    let mut frame = Vec::new(alloc);
    frame.extend_from_slice(&size)?;
    frame.extend_from_slice(payload)?;
    frame.push(CLOSED)?;
    Ok(frame)
}
