// What is picked.
ghost use Rattle.std.specs.Prelude.{◌≡◌, List, ℕ, Option, length};
ghost use Rattle.chv_merge.specs.Picks.{AreLowest, picked};
ghost use Rattle.chv_merge.specs.declared.run.Run.{Run as SomeRun};

/// Of all eight adjacent parts that share a level those are picked whose level is the lowest, and of these the leftmost; nothing is
/// picked only where no eight adjacent parts share a level.
pub fn law_picked()
    ensures lowest { (levels : List ℕ) → AreLowest levels (length levels) (picked levels) }
    ensures only { (levels : List ℕ) (found : Option SomeRun) → AreLowest levels (length levels) found → found ≡ picked levels }
{}
