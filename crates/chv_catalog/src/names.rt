// Names and their places.
ghost use Rattle.std.specs.Prelude.{◌≡◌, ◌≢◌, ◌++◌, ◌∷◌, ◌≤◌, ◌<◌, ◌+◌, [], ℕ, length, None, IfSome, OnOk, OnErr};
ghost use Rattle.chv_types.specs.Names.{place_of};

use indexmap::IndexSet;
use std::alloc::{AllocError, Global};
use std::marker::Model;

/// Names that differ, in the order in which they came. A name is found by its hash.
#[derive(Debug, Drop)]
pub struct Names {
    set: IndexSet<Vec<u8>>,
}

impl Model for Names {
    ghost use Rattle.indexmap.specs.IndexSet.{spare};
    ghost use Rattle.chv_catalog.specs.Names.{Named, texts_of};

    ghost Value = { Named };

    ghost view = { λ n. record { names = texts_of n.set.keys; room = spare n.set } };
}

impl Names {
    /// No names.
    pub fn new(alloc: Global) -> Names
        ensures { result.names ≡ [] }
    {
        Names {
            set: IndexSet::new(alloc),
        }
    }

    /// Makes room for one name more.
    pub fn reserve_one(&mut self) -> Result<(), AllocError>
        ensures names { self.new.names ≡ self.old.names }
        ensures room { OnOk result (1 ≤ self.new.room) }
        ensures kept { self.old.room ≤ self.new.room }
    {
        self.set.reserve(1)
    }

    /// The place of a name, counted from 0; None exactly where it is none of them.
    pub fn place(&self, name: &[u8]) -> Option<usize>
        ensures place { result ≡ place_of name.now self.now.names }
        ensures within { IfSome result (λ place. place < length self.now.names) }
    {
        self.set.get_index_of(name)
    }

    /// Puts a name behind the others. It takes no memory.
    pub fn add(&mut self, name: Vec<u8>)
        requires room { 1 ≤ self.old.room }
        requires new { place_of name.items self.old.names ≡ None }
        ensures { self.new.names ≡ self.old.names ++ name.items ∷ [] }
    {
        match self.set.insert(name) {
            Ok(_) => {}
            Err(_) => {
                prove!(false);
            }
        }
    }
}
