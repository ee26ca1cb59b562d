// What main says of a run that did not come to its end.
ghost use Rattle.std.specs.Prelude.{◌↔◌, IsNone};
ghost use Rattle.chviews.specs.Statuses.{CameToItsEnd};

use chv_engine::Status;
use thiserror::Error;

/// Why a run did not come to its end, as standard error is told.
#[derive(Clone, Copy, Debug, Drop, Error)]
pub enum Fault {
    #[error("BadWords")]
    BadWords,
    #[error("DiskFault")]
    DiskFault,
    #[error("DiskFault: another run has this store open")]
    Taken,
    #[error("SourceFault")]
    SourceFault,
    #[error("SayFault")]
    SayFault,
    #[error("Damaged")]
    Damaged,
    #[error("NoMemory")]
    NoMemory,
    #[error("TooLong")]
    TooLong,
}

/// The fault of a status, and of a disk fault whether it came of a store that another run has open.
pub fn fault_of(status: Status, is_taken: bool) -> Option<Fault>
    ensures { IsNone result ↔ CameToItsEnd status }
{
    match status {
        Status::Done | Status::SomeRefused => None,
        Status::BadWords => Some(Fault::BadWords),
        Status::DiskFault if is_taken => Some(Fault::Taken),
        Status::DiskFault => Some(Fault::DiskFault),
        Status::SourceFault => Some(Fault::SourceFault),
        Status::SayFault => Some(Fault::SayFault),
        Status::Damaged => Some(Fault::Damaged),
        Status::NoMemory => Some(Fault::NoMemory),
        Status::TooLong => Some(Fault::TooLong),
    }
}
