// The last ids.
ghost use Rattle.std.specs.Prelude.{◌≡◌, ◌++◌, ◌∷◌, ◌↔◌, [], IfOk, IsTrue};
ghost use Rattle.std.specs.List.{Contains};
ghost use Rattle.chv_sip.specs.BlockIds.{last_ids};

use chv_sip::BlockId;
use circular_buffer::HeapCircularBuffer;
use std::alloc::{AllocError, Global};
use std::marker::Model;

/// The ids of the last blocks that were delivered to a table, the oldest first.
///
/// A window of size 0 keeps no id, so nothing counts as delivered before. All its memory is taken as it is made.
#[derive(Debug, Drop)]
pub struct Window {
    ids: HeapCircularBuffer<BlockId>,
}

impl Model for Window {
    ghost use Rattle.chv_window.specs.Windows.{Seen};

    ghost Value = { Seen };

    ghost view = { λ w. record { size = w.ids.capacity; ids = w.ids.items } };
}

impl Window {
    /// A window that keeps so many ids, and holds none.
    pub fn new(alloc: Global, size: u32) -> Result<Window, AllocError>
        ensures { IfOk result (λ window. window ≡ record { size = size; ids = [] }) }
    {
        Ok(Window {
            ids: HeapCircularBuffer::with_capacity(alloc, size as usize)?,
        })
    }

    /// Whether an id is among those that are held.
    pub fn has(&self, id: BlockId) -> bool
        ensures { IsTrue result ↔ Contains self.now.ids id }
    {
        self.ids.iter().any(|held| *held == id)
    }

    /// Notes a delivery. Where the window is full, the oldest id leaves it. It takes no memory.
    pub fn push(&mut self, id: BlockId)
        ensures { self.new ≡ record { size = self.old.size; ids = last_ids self.old.size (self.old.ids ++ id ∷ []) } }
    {
        self.ids.push_back(id);
    }
}
