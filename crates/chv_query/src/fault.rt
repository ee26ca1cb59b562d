// Why a query gives no rows.
ghost use Rattle.std.specs.Prelude.{◌≡◌};
ghost use Rattle.chv_query.specs.declared.fault.BlockFault.TheVariants as fault;

use std::alloc::AllocError;

/// Why a query gives no rows.
#[derive(Clone, Copy, Debug, PartialEq, Eq)]
pub enum BlockFault {
    /// A divisor is zero: first in the row of this place, counted from 0.
    ZeroDivisor { row: usize },
    /// There was no memory.
    NoMemory,
}

impl From<AllocError> for BlockFault {
    ghost from_gives = { λ _ e. e ≡ fault.NoMemory };

    fn from(_: AllocError) -> BlockFault {
        BlockFault::NoMemory
    }
}
