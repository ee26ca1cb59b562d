// What the store asks of an open file beside the calls of std's traits.

use std::fs::{File, OpenFile, TryLockError};
use std::io;
use std::os::fd::AsRawFd;
use std::os::unix::fs::FileExt;

/// The number of standard error, the last of the standard streams.
const LAST_STREAM: i32 = 2;

/// A file that is open, or a folder that is open for reading.
pub trait StoreFile: OpenFile + FileExt {
    /// Takes the lock of the whole file, and answers false where another open of the file has it. It
    /// lasts as long as this one is open, so that a process that ends, however it does, leaves none.
    fn take_lock(&self) -> io::Result<bool>;

    /// Whether its number is that of a standard stream, which was closed as this file was opened.
    fn is_stream(&self) -> bool;
}

impl StoreFile for File {
    fn take_lock(&self) -> io::Result<bool> {
        match self.try_lock() {
            Ok(()) => Ok(true),
            Err(TryLockError::WouldBlock) => Ok(false),
            Err(TryLockError::Error(e)) => Err(e),
        }
    }

    fn is_stream(&self) -> bool {
        self.as_raw_fd() <= LAST_STREAM
    }
}

/// The lock of a folder, which lasts as long as this value.
#[derive(Drop)]
pub struct Lock<F> {
    _folder: F,
}

impl<F: StoreFile + Drop> Lock<F> {
    /// None where another run has it.
    pub fn take(folder: F) -> io::Result<Option<Lock<F>>> {
        if folder.take_lock()? {
            Ok(Some(Lock { _folder: folder }))
        } else {
            Ok(None)
        }
    }
}
