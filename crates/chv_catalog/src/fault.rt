// Why a statement is not carried out.
ghost use Rattle.std.specs.Prelude.{◌≡◌};
ghost use Rattle.chv_catalog.specs.declared.fault.StatementFault.TheVariants as fault;

use chv_ast::Refusal;
use std::alloc::AllocError;

/// Why a statement is not carried out.
#[derive(Clone, Copy, Debug, PartialEq, Eq)]
pub enum StatementFault {
    /// The first check that refuses it.
    Refused(Refusal),
    /// There was no memory.
    NoMemory,
}

impl From<AllocError> for StatementFault {
    ghost from_gives = { λ _ e. e ≡ fault.NoMemory };

    fn from(_: AllocError) -> Self {
        StatementFault::NoMemory
    }
}

impl From<Refusal> for StatementFault {
    ghost from_gives = { λ refusal e. e ≡ fault.Refused refusal };

    fn from(refusal: Refusal) -> Self {
        StatementFault::Refused(refusal)
    }
}
