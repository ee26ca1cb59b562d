// Live parts that become one.
ghost use Rattle.std.specs.Prelude.{◌≡◌, ◌+◌, ◌≤◌, ◌<◌, ◌++◌, true, false, length, nat_eq, take, drop, if◌then◌else◌, None, Some};
ghost use Rattle.std.specs.List.{position};
ghost use Rattle.std.specs.Vec.{vec_capacity};
ghost use Rattle.chv_commit.specs.Replays.{greatest_level, joined};

use crate::PartRow;

/// Makes the parts from the one that begins as this one to the one that ends as it into this one. It answers false exactly
/// where they are fewer than two, or its level is not one above their greatest, and then nothing changed.
pub fn join(layout: &mut Vec<PartRow>, row: PartRow) -> bool
    ensures joined { joined row layout.old.items ≡ (if result then Some layout.new.items else None) }
    ensures kept { result ≡ false → layout.new ≡ layout.old }
    ensures fewer { result ≡ true → length layout.new.items + 1 ≤ length layout.old.items }
    ensures room { vec_capacity layout.old ≤ vec_capacity layout.new }
{
    let Some(from) = beginning_at(layout.as_slice(), row.lo) else {
        return false;
    };
    let Some(last) = ending_at(layout.as_slice(), row.hi) else {
        return false;
    };
    if from >= last || !is_above(&layout[from..last + 1], row.level) {
        return false;
    }
    layout[from] = row;
    cut(layout, from + 1, last + 1);
    true
}

// The place of the first part that begins with an entry.
fn beginning_at(layout: &[PartRow], lo: u64) -> Option<usize>
    ensures { result ≡ position (λ row. nat_eq row.lo lo) layout.now }
{
    layout.iter().position(|row| row.lo == lo)
}

// The place of the first part that ends with an entry.
fn ending_at(layout: &[PartRow], hi: u64) -> Option<usize>
    ensures { result ≡ position (λ row. nat_eq row.hi hi) layout.now }
{
    layout.iter().position(|row| row.hi == hi)
}

// Whether a level is one above the greatest of parts.
fn is_above(rows: &[PartRow], level: u64) -> bool
    ensures { result ≡ nat_eq level (greatest_level rows.now + 1) }
{
    level != 0 && greatest_level(rows) == level - 1
}

/// The greatest level of parts.
pub fn greatest_level(rows: &[PartRow]) -> u64
    ensures { result ≡ greatest_level rows.now }
{
    let mut greatest = 0;
    for row in rows {
        greatest = greatest.max(row.level);
    }
    greatest
}

// Removes the parts from one place to before another.
fn cut(layout: &mut Vec<PartRow>, from: usize, to: usize)
    requires { (from ≤ to) × (to ≤ length layout.old.items) }
    ensures items { layout.new.items ≡ take from layout.old.items ++ drop to layout.old.items }
    ensures room { vec_capacity layout.old ≤ vec_capacity layout.new }
{
    layout.drain(from..to);
}
