// Why a call on a table was ended.
ghost use Rattle.std.specs.Prelude.{◌≡◌};
ghost use Rattle.chv_table.specs.declared.fault.PutFault.TheVariants as put;
ghost use Rattle.chv_table.specs.declared.fault.TableFault.TheVariants as table;

use chv_part::Damage;
use chv_site::Failed;
use std::alloc::AllocError;

/// Why the log of a new table was not begun.
#[derive(Clone, Copy, Debug, PartialEq, Eq)]
pub enum PutFault {
    /// A call of the site failed.
    Failed,
    /// There was no memory. No call of the site was made.
    NoMemory,
}

impl From<Failed> for PutFault {
    ghost from_gives = { λ _ e. e ≡ put.Failed };

    fn from(_: Failed) -> Self {
        PutFault::Failed
    }
}

impl From<AllocError> for PutFault {
    ghost from_gives = { λ _ e. e ≡ put.NoMemory };

    fn from(_: AllocError) -> Self {
        PutFault::NoMemory
    }
}

/// Why a table was not opened, or its rows were not read.
#[derive(Clone, Copy, Debug, PartialEq, Eq)]
pub enum TableFault {
    /// A call of the site failed.
    Failed,
    /// A file that was read is damaged.
    Damaged(Damage),
    /// There was no memory.
    NoMemory,
}

impl From<Failed> for TableFault {
    ghost from_gives = { λ _ e. e ≡ table.Failed };

    fn from(_: Failed) -> Self {
        TableFault::Failed
    }
}

impl From<AllocError> for TableFault {
    ghost from_gives = { λ _ e. e ≡ table.NoMemory };

    fn from(_: AllocError) -> Self {
        TableFault::NoMemory
    }
}
