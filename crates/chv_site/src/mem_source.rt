// A source in memory.
ghost use Rattle.std.specs.Prelude.{◌≤◌, length};

use crate::copying::copy_front;
use crate::{Failed, Fails, Source};

/// A source of bytes in memory, whose pulls fail where they are told to.
///
/// The first pull has the number 1.
#[derive(Debug, Drop)]
pub struct MemSource {
    bytes: Vec<u8>,
    // how many bytes were pulled
    place: usize,
    ghost within: { place ≤ length bytes.items },
    fails: Fails,
    calls: u64,
    faults: u64,
}

impl MemSource {
    ghost use Rattle.std.specs.Prelude.{◌≡◌};
    ghost use Rattle.chv_site.specs.MemSource.{source_left, source_fails, source_calls, source_faults};

    /// A source of these bytes, whose pulls with the numbers of `fails` fail.
    pub fn new(bytes: Vec<u8>, fails: Fails) -> MemSource
        ensures left { source_left result ≡ bytes.items }
        ensures fails { source_fails result ≡ fails }
        ensures calls { source_calls result ≡ 0 }
        ensures faults { source_faults result ≡ 0 }
    {
        MemSource {
            bytes,
            place: 0,
            fails,
            calls: 0,
            faults: 0,
        }
    }
}

impl Source for MemSource {
    ghost use Rattle.std.specs.Prelude.{◌≡◌, ◌++◌, ◌<◌, ◌≤◌, ◌↔◌, [], length, take, IfOk, IsErr, OnErr};
    ghost use Rattle.std.specs.List.{Contains};
    ghost use Rattle.chv_site.specs.Faults.{IsCounted, raised};
    ghost use Rattle.chv_site.specs.MemSource.{source_left, source_fails, source_calls, source_faults};

    ghost tells = { Unit {0} };

    ghost left = { source_left };

    ghost faults = { source_faults };

    fn pull(&mut self, buf: &mut [u8]) -> Result<usize, Failed>
        requires { 0 < length buf.old }
        ensures within { IfOk result (λ n. n ≤ length buf.old) }
        ensures pulled { IfOk result (λ n. source_left self.old ≡ take n buf.new ++ source_left self.new) }
        ensures end { IfOk result (λ n. (n ≡ 0) ↔ (source_left self.old ≡ [])) }
        ensures err { OnErr result (source_left self.new ≡ source_left self.old) }
        ensures failed { IsCounted (source_faults self.old) (source_faults self.new) result }

        // It fails exactly where it is told to.
        ensures told { IsErr result ↔ Contains (source_fails self.old) (raised (source_calls self.old)) }
        ensures calls { source_calls self.new ≡ raised (source_calls self.old) }
        ensures fails { source_fails self.new ≡ source_fails self.old }
    {
        self.calls = self.calls.saturating_add(1);
        if self.fails.has(self.calls) {
            self.faults = self.faults.saturating_add(1);
            return Err(Failed);
        }
        let moved = copy_front(&self.bytes[self.place..], buf);
        self.place += moved;
        Ok(moved)
    }
}
