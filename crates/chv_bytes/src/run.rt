// Runs of bytes, each with its length in front.
ghost use Rattle.std.specs.Prelude.{◌≡◌, ◌≤◌, ◌<◌, ◌+◌, ◌^◌, ◌++◌, ◌↔◌, length, IfSome, IsSome, OnOk, OnErr};
ghost use Rattle.chv_bytes.specs.Runs.{run_bytes, RunFits, RunStandsAt};

use byteorder::{ByteOrder, LittleEndian};
use std::alloc::AllocError;

// The bytes of a length.
const LENGTH_BYTES: usize = 4;

/// Puts a run behind `out`: its length in 4 bytes, and its bytes.
pub fn put_run(out: &mut Vec<u8>, run: &[u8]) -> Result<(), AllocError>
    requires { length run.now < 2 ^ 32 }
    ensures put { OnOk result (out.new.items ≡ out.old.items ++ run_bytes run.now) }
    ensures err { OnErr result (out.new.items ≡ out.old.items) }
{
    let before = out.len();
    out.extend_from_slice(&(run.len() as u32).to_le_bytes())?;
    match out.extend_from_slice(run) {
        Ok(()) => Ok(()),
        Err(fault) => {
            out.truncate(before);
            Err(fault)
        }
    }
}

/// Where the run whose length begins at `at` starts and ends. None where the length or the run does not fit.
///
/// The length is compared with the bytes that are left before it is used.
pub fn read_run(bytes: &[u8], at: usize) -> Option<(usize, usize)>
    ensures found { IfSome result (λ r. RunStandsAt bytes.now at r.0 r.1) }
    ensures some { IsSome result ↔ RunFits bytes.now at }
{
    if at > bytes.len() || bytes.len() - at < LENGTH_BYTES {
        return None;
    }
    let start = at + LENGTH_BYTES;
    let length = LittleEndian::read_u32(&bytes[at..]) as usize;
    if bytes.len() - start < length {
        return None;
    }
    Some((start, start + length))
}
