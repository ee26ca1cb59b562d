// Which parts a merge joins.
ghost use Rattle.std.specs.Prelude.{◌≡◌, ◌+◌, ◌<◌, ◌↔◌, IsTrue, length};
ghost use Rattle.chv_merge.specs.Picks.{AreLowest, ShareLevel, levels_of, picked};

use crate::Run;
use chv_commit::PartRow;
use sqlite_items::at;

/// How many adjacent parts of one level become one.
const MERGED_PARTS: usize = 8;

/// The parts that are merged next: of the lowest level that has eight adjacent parts, the leftmost eight. None where no eight
/// adjacent parts share a level.
pub fn pick(layout: &[PartRow]) -> Option<Run>
    ensures { result ≡ picked (levels_of layout.now) }
{
    let mut lowest = None;
    for from in 0..layout.len() {
        lowest = lower(layout, from, lowest);
    }
    lowest
}

// The lowest eight adjacent parts that begin before a place or at it.
fn lower(layout: &[PartRow], from: usize, before: Option<Run>) -> Option<Run>
    requires place { from < length layout.now }
    requires before { AreLowest (levels_of layout.now) from before }
    ensures { AreLowest (levels_of layout.now) (from + 1) result }
{
    let level = layout[from].level;
    if !share_level(&layout[from..], level) {
        return before;
    }
    match before {
        Some(run) if run.level <= level => before,
        _ => Some(Run {
            from,
            count: MERGED_PARTS,
            level,
        }),
    }
}

// Whether there are eight parts in front, and they have this level.
fn share_level(parts: &[PartRow], level: u64) -> bool
    ensures { IsTrue result ↔ ShareLevel (levels_of parts.now) 0 level }
{
    for place in 0..MERGED_PARTS {
        match at(parts, place) {
            Some(part) => {
                if part.level != level {
                    return false;
                }
            }
            None => return false,
        }
    }
    true
}
