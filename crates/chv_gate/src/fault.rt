// Why a log is not read on.
ghost use Rattle.std.specs.Prelude.{◌≡◌};
ghost use Rattle.chv_gate.specs.declared.fault.GateFault.TheVariants as fault;

use chv_site::Failed;
use std::alloc::AllocError;

/// Why a gate log was not read on.
#[derive(Clone, Copy, Debug, PartialEq, Eq)]
pub enum GateFault {
    /// A call of the site failed.
    Failed,
    /// The gate before place `at` is open, and no frame with a gate behind it stands there.
    Damaged { at: u64 },
    /// There was no memory for the payload.
    NoMemory,
}

impl From<Failed> for GateFault {
    ghost from_gives = { λ _ e. e ≡ fault.Failed };

    fn from(_: Failed) -> Self {
        GateFault::Failed
    }
}

impl From<AllocError> for GateFault {
    ghost from_gives = { λ _ e. e ≡ fault.NoMemory };

    fn from(_: AllocError) -> Self {
        GateFault::NoMemory
    }
}
