// Why a run was ended.
ghost use Rattle.std.specs.Prelude.{◌≡◌};
ghost use Rattle.chv_flight.specs.Faults.{put_fault_of, table_fault_of};
ghost use Rattle.chv_flight.specs.declared.fault.RunFault.TheVariants.{Disk, NoMemory};

use chv_part::Damage;
use chv_site::Failed;
use chv_table::{PutFault, TableFault};
use std::alloc::AllocError;

/// Why a run ended before its last statement was answered.
#[derive(Clone, Copy, Debug, PartialEq, Eq)]
pub enum RunFault {
    /// A call on files failed.
    Disk,
    /// A say failed.
    Say,
    /// A file that was read is damaged.
    Damaged(Damage),
    /// There was no memory.
    NoMemory,
}

impl From<AllocError> for RunFault {
    ghost from_gives = { λ _ e. e ≡ NoMemory };

    fn from(_: AllocError) -> Self {
        RunFault::NoMemory
    }
}

impl From<Failed> for RunFault {
    ghost from_gives = { λ _ e. e ≡ Disk };

    fn from(_: Failed) -> Self {
        RunFault::Disk
    }
}

impl From<PutFault> for RunFault {
    ghost from_gives = { λ fault e. e ≡ put_fault_of fault };

    fn from(fault: PutFault) -> Self {
        match fault {
            PutFault::Failed => RunFault::Disk,
            PutFault::NoMemory => RunFault::NoMemory,
        }
    }
}

impl From<TableFault> for RunFault {
    ghost from_gives = { λ fault e. e ≡ table_fault_of fault };

    fn from(fault: TableFault) -> Self {
        match fault {
            TableFault::Failed => RunFault::Disk,
            TableFault::Damaged(damage) => RunFault::Damaged(damage),
            TableFault::NoMemory => RunFault::NoMemory,
        }
    }
}
