// A script that comes from the system.
ghost use Rattle.std.specs.Prelude.{◌≡◌, [], IsSome};
ghost use Rattle.std.specs.Option.{unwrap_or};

use crate::count::counted;
use chv_site::{Failed, Source};
use std::io::Read;

/// A reader as a source. It tells what it has left where the reader does, as standard input does not.
///
/// A read that a signal interrupts is a fault, as any that fails.
#[derive(Drop)]
pub struct StdSource<I> {
    input: I,
    faults: u64,
}

impl<I: Read> StdSource<I> {
    pub fn new(input: I) -> StdSource<I>
        ensures { result.faults ≡ 0 }
    {
        StdSource { input, faults: 0 }
    }
}

impl<I: Read> Source for StdSource<I> {
    ghost tells = { (input : I) → IsSome (I.remaining input) };

    ghost left = { λ s. unwrap_or (I.remaining s.input) [] };

    ghost faults = { λ s. s.faults };

    fn pull(&mut self, buf: &mut [u8]) -> Result<usize, Failed> {
        // One read alone, which may be short: whoever pulls goes on until nothing comes.
        let answer = self.input.read(buf);
        counted(&mut self.faults, answer)
    }
}
