// How a script is pulled.
ghost use Rattle.std.specs.Prelude.{◌≡◌, ◌≤◌, [], length, IfOk, IfErr};
ghost use Rattle.chv_engine.specs.Pulls.{PulledUpTo, CountsPulls};

use chv_site::{Failed, Source};
use std::alloc::{AllocError, Global};

/// The most bytes that a script has.
pub const MAX_SCRIPT: usize = 67_108_864;

/// How many bytes are asked for at once.
const CHUNK: usize = 16_384;

/// Why a script was not pulled.
#[derive(Clone, Copy, Debug, PartialEq, Eq)]
pub enum PullFault {
    /// A pull failed.
    Failed,
    /// The script is longer than [`MAX_SCRIPT`].
    TooLong,
    /// There was no memory.
    NoMemory,
}

impl From<AllocError> for PullFault {
    ghost use Rattle.std.specs.Prelude.{◌≡◌};
    ghost use Rattle.chv_engine.specs.declared.pull.PullFault.TheVariants.{NoMemory};

    ghost from_gives = { λ _ e. e ≡ NoMemory };

    fn from(_: AllocError) -> Self {
        PullFault::NoMemory
    }
}

impl From<Failed> for PullFault {
    ghost use Rattle.std.specs.Prelude.{◌≡◌};
    ghost use Rattle.chv_engine.specs.declared.pull.PullFault.TheVariants.{Failed as failed};

    ghost from_gives = { λ _ e. e ≡ failed };

    fn from(_: Failed) -> Self {
        PullFault::Failed
    }
}

/// Pulls a source to its end: all its bytes, where they are no more than [`MAX_SCRIPT`].
pub fn pull_script<S: Source>(alloc: Global, source: &mut S) -> Result<Vec<u8>, PullFault>
    ensures script { S.tells → IfOk result (λ script. (script.items ≡ S.left source.old) × (S.left source.new ≡ [])) }
    ensures fits { IfOk result (λ script. length script.items ≤ MAX_SCRIPT) }
    ensures err { S.tells → IfErr result (PulledUpTo (S.left source.old) (S.left source.new)) }
    ensures counts { CountsPulls result (S.faults source.old) (S.faults source.new) }
{
    let mut script = Vec::new(alloc);
    let mut chunk = [0; CHUNK];
    'pulls: loop {
        let count = source.pull(&mut chunk)?;
        if count == 0 {
            return Ok(script);
        }
        // Compared before it is kept: the longest script bounds the memory.
        if count > MAX_SCRIPT - script.len() {
            return Err(PullFault::TooLong);
        }
        script.extend_from_slice(&chunk[..count])?;
    }
}
