// Numbers that climb.
ghost use Rattle.std.specs.Prelude.{◌≡◌, ◌++◌, ◌<◌, ◌<ℤ◌, [], false, length, IfOk, IfSome, IsTrue, OnOk};
ghost use Rattle.std.specs.Int.{w128};
ghost use Rattle.std.specs.Int.RustNames.{FitsSigned};
ghost use Rattle.std.specs.List.{All, position};
ghost use Rattle.std.specs.Ordering.{int_eq};
ghost use Rattle.chv_group.specs.KeyBytes.{AreKept, Climb};

use indexmap::IndexSet;
use std::alloc::{AllocError, Global};

/// The place of a number among numbers that climb, or None of one that is above them; of any other there is no answer.
pub(crate) fn place_at_end(climbing: &[i128], n: i128) -> Option<Option<usize>>
    requires climb { Climb climbing.now }
    ensures place { IfSome result (λ place. place ≡ position (int_eq n) climbing.now) }
    ensures fits { FitsSigned w128 n }
{
    if is_above(climbing, n) {
        return Some(None);
    }
    let last = climbing.len() - 1;
    if climbing[last] == n {
        return Some(Some(last));
    }
    None
}

/// Whether a number is above all numbers that climb.
pub(crate) fn is_above(climbing: &[i128], n: i128) -> bool
    requires climb { Climb climbing.now }
    ensures above { IsTrue result → All (λ m. m <ℤ n) climbing.now }
    ensures some { result ≡ false → 0 < length climbing.now }
{
    let count = climbing.len();
    if count == 0 {
        return true;
    }
    climbing[count - 1] < n
}

/// Moves numbers that climb into the set behind them, where they are found in any order.
pub(crate) fn settle(
    alloc: Global,
    climbing: &mut Vec<i128>,
    numbers: &mut IndexSet<i128>,
) -> Result<(), AllocError>
    requires kept { AreKept climbing.old.items numbers.old.keys }
    ensures kept { AreKept climbing.new.items numbers.new.keys }
    ensures same { climbing.new.items ++ numbers.new.keys ≡ climbing.old.items ++ numbers.old.keys }
    ensures settled { OnOk result (climbing.new.items ≡ []) }
{
    if climbing.is_empty() {
        return Ok(());
    }
    *numbers = set_of(alloc, climbing.as_slice())?;
    climbing.clear();
    Ok(())
}

// The set of numbers that climb, in their order.
fn set_of(alloc: Global, climbing: &[i128]) -> Result<IndexSet<i128>, AllocError>
    requires climb { Climb climbing.now }
    ensures { IfOk result (λ set. set.keys ≡ climbing.now) }
{
    let mut set = IndexSet::new(alloc);
    for i in 0..climbing.len() {
        set.insert(climbing[i])?;
    }
    Ok(set)
}
