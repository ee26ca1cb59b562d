// Which calls of a fake are to fail.
ghost use Rattle.std.specs.Prelude.{◌≡◌, ◌++◌, ◌↔◌, [], ◌∷◌, length, slice_get, OnOk, OnErr, IsTrue};
ghost use Rattle.std.specs.Option.{option_copied};
ghost use Rattle.std.specs.List.{Contains};

use std::alloc::{AllocError, Global};
use std::marker::Model;

/// The numbers of the calls that fail, ascending. The first call has the number 1.
#[derive(Debug, Drop)]
pub struct Fails {
    calls: Vec<u64>,
}

impl Model for Fails {
    ghost use Rattle.std.specs.Prelude.{List, ℕ};
    ghost use Rattle.std.specs.Coded.{coded_list, coded_ℕ};

    ghost Value = { List ℕ };

    ghost coded = { coded_list coded_ℕ };

    ghost view = { λ a. a.calls.items };
}

impl Fails {
    /// No call fails.
    pub fn new(alloc: Global) -> Fails
        ensures { result ≡ [] }
    {
        Fails {
            calls: Vec::new(alloc),
        }
    }

    /// How many calls fail.
    pub fn len(&self) -> usize
        ensures { result ≡ length self.now }
    {
        self.calls.len()
    }

    /// The number at place `i` of the list, the first place being 0.
    pub fn get(&self, i: usize) -> Option<u64>
        ensures { result ≡ slice_get self.now i }
    {
        self.calls.get(i).copied()
    }

    /// Whether the call of this number fails.
    pub fn has(&self, call: u64) -> bool
        ensures { IsTrue result ↔ Contains self.now call }
    {
        self.calls.contains(&call)
    }

    /// Lets one more call fail, behind the others.
    pub fn push(&mut self, call: u64) -> Result<(), AllocError>
        ensures pushed { OnOk result (self.new ≡ self.old ++ call ∷ []) }
        ensures err { OnErr result (self.new ≡ self.old) }
    {
        self.calls.push(call)?;
        Ok(())
    }

    /// The numbers as a vector.
    pub fn into_items(self) -> Vec<u64>
        ensures { result.items ≡ self }
    {
        let Fails { calls } = self;
        calls
    }

    /// The calls of these numbers fail.
    pub fn of_items(calls: Vec<u64>) -> Fails
        ensures { result ≡ calls.items }
    {
        Fails { calls }
    }
}
