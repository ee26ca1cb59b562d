// The calls that a site in memory keeps a record of.
use crate::FileId;
use std::alloc::{AllocError, Global};
use std::marker::Model;

/// Bytes, which a clause sees as a list.
#[derive(Debug, Drop)]
pub struct Bytes {
    items: Vec<u8>,
}

impl Model for Bytes {
    ghost use Rattle.std.specs.Prelude.{List, ℕ};
    ghost use Rattle.std.specs.Coded.{coded_list, coded_ℕ};

    ghost Value = { List ℕ };

    ghost coded = { coded_list coded_ℕ };

    ghost view = { λ a. a.items.items };
}

impl Bytes {
    ghost use Rattle.std.specs.Prelude.{◌≡◌, IfOk};

    /// The same bytes once more.
    pub fn copied(alloc: Global, bytes: &[u8]) -> Result<Bytes, AllocError>
        ensures { IfOk result (λ made. made ≡ bytes.now) }
    {
        let items = bytes.to_vec(alloc)?;
        Ok(Bytes { items })
    }

    /// These bytes.
    pub fn of_items(items: Vec<u8>) -> Bytes
        ensures { result ≡ items.items }
    {
        Bytes { items }
    }

    pub fn as_slice(&self) -> &[u8]
        ensures { result.now ≡ self.now }
    {
        &self.items
    }
}

/// What a call does to a file, done or begun only.
#[derive(Debug, Drop)]
pub enum Act {
    /// These bytes are put at a place.
    Put { at: usize, bytes: Bytes },
    /// A put of so many bytes at a place fails: it was begun.
    BeginPut { at: usize, len: usize },
    /// The file is cut to a length.
    Cut { len: usize },
    /// A cut to a length fails: it was begun.
    BeginCut { len: usize },
    /// The file is synced.
    Sync,
    /// The file is made with these bytes, all of them on the disk.
    Restore { bytes: Bytes },
}

/// A call that changes a file, what a crash may leave of it, or the text.
#[derive(Debug, Drop)]
pub enum Call {
    OnFile { file: FileId, act: Act },
    Say { bytes: Bytes },
}
