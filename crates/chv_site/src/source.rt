// Where a script comes from.
ghost use Rattle.std.specs.Prelude.{◌≡◌, ◌++◌, ◌<◌, ◌≤◌, ◌↔◌, [], List, ℕ, length, take, IfOk, OnErr};
ghost use Rattle.chv_site.specs.Faults.{IsCounted};

use crate::Failed;

/// A stream of bytes that is pulled to its end.
pub trait Source {
    /// Holds where the source tells what it has: each clause on content is under this premise.
    ghost tells: { Type 0 };

    /// The bytes that are left.
    ghost left: { Self → List ℕ };

    /// How often a pull has failed.
    ghost faults: { Self → ℕ };

    /// Moves the next bytes to the front of a buffer, and answers how many: 0 exactly where nothing is left.
    /// What the buffer holds behind them is open.
    fn pull(&mut self, buf: &mut [u8]) -> Result<usize, Failed>
        requires { 0 < length buf.old }
        ensures within { IfOk result (λ n. n ≤ length buf.old) }
        ensures pulled { tells → IfOk result (λ n. left self.old ≡ take n buf.new ++ left self.new) }
        ensures end { tells → IfOk result (λ n. (n ≡ 0) ↔ (left self.old ≡ [])) }
        ensures err { tells → OnErr result (left self.new ≡ left self.old) }
        ensures failed { IsCounted (faults self.old) (faults self.new) result };
}
