// Counts of faults.
ghost use Rattle.std.specs.Prelude.{◌≡◌, Ok, IfOk, IsErr, OnErr};
ghost use Rattle.chv_site.specs.Faults.{IsCounted};

use chv_site::Failed;
use std::io;

/// Passes on what a call of the system gave, and counts an error.
pub fn counted<T>(count: &mut u64, answer: io::Result<T>) -> Result<T, Failed>
    ensures counted { IsCounted count.old count.new result }
    ensures ok { IfOk result (λ x. answer ≡ Ok x) }
    ensures err { OnErr result (IsErr answer) }
{
    match answer {
        Ok(x) => Ok(x),
        Err(_) => {
            // A count that stands at its greatest number counts as risen, so it may stay there.
            *count = count.saturating_add(1);
            Err(Failed)
        }
    }
}
