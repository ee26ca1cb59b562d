// The law of the last ids.
ghost use Rattle.std.specs.Prelude.{◌≡◌, ◌++◌, List, ℕ};
ghost use Rattle.chv_sip.specs.declared.block_id.BlockId.{BlockId};
ghost use Rattle.chv_sip.specs.BlockIds.{last_ids};

/// What is kept goes by what was kept before: older ids than the last never count again.
pub fn law_last_ids()
    ensures { (size : ℕ) (older newer : List BlockId) → last_ids size (last_ids size older ++ newer) ≡ last_ids size (older ++ newer) }
{}
