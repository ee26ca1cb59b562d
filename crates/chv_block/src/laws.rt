// What holds of all values, rows and blocks, as laws on the definitions.
ghost use Rattle.std.specs.Prelude.{List, ℕ, ◌≡◌, ◌<◌, ◌≤◌, ◌^◌, ◌++◌, length};
ghost use Rattle.std.specs.List.{All};
ghost use Rattle.chv_types.specs.declared.kind.Kind.{Kind};
ghost use Rattle.chv_types.specs.declared.value.Value.{Value};
ghost use Rattle.chv_block.specs.Blocks.{Sized, IsCut, blocks_of, joined, rows_of};
ghost use Rattle.chv_block.specs.declared.squasher.Sizes.{Sizes};
ghost use Rattle.chv_block.specs.Spellings.{IsOf, value_spelling, AreOf, row_spelling, AllAreOf, block_spelling};

/// Bytes begin with one value of a kind at most, so what a value is put as reads back as the value.
pub fn law_value_reads_back()
    ensures { (kind : Kind) (a b : Value) (x y : List ℕ) → IsOf kind a → IsOf kind b
        → value_spelling kind a ++ x ≡ value_spelling kind b ++ y → (a ≡ b) × (x ≡ y) }
{}

/// Bytes begin with one row of the same kinds at most.
pub fn law_row_reads_back()
    ensures { (kinds : List Kind) (a b : List Value) (x y : List ℕ) → AreOf kinds a → AreOf kinds b
        → row_spelling kinds a ++ x ≡ row_spelling kinds b ++ y → (a ≡ b) × (x ≡ y) }
{}

/// Bytes begin with one block of the same kinds at most.
pub fn law_block_reads_back()
    ensures { (kinds : List Kind) (a b : List (List Value)) (x y : List ℕ) → length a < 2 ^ 64 → length b < 2 ^ 64 → AllAreOf kinds a → AllAreOf kinds b
        → block_spelling kinds a ++ x ≡ block_spelling kinds b ++ y → (a ≡ b) × (x ≡ y) }
{}

/// The blocks of an insert are groups of its pieces: each but the last is closed, and none is closed before its last piece.
pub fn law_blocks_are_cut()
    ensures { (sizes : Sizes) (rows : List Sized) → 1 ≤ sizes.max_rows → IsCut sizes rows (blocks_of sizes rows) }
{}

/// The blocks of an insert, one behind the other, are its rows in order, and no block is without rows.
pub fn law_blocks_keep_rows()
    ensures joined { (sizes : Sizes) (rows : List Sized) → 1 ≤ sizes.max_rows → joined (blocks_of sizes rows) ≡ rows_of rows }
    ensures some { (sizes : Sizes) (rows : List Sized) → 1 ≤ sizes.max_rows → All (λ block. 1 ≤ length block) (blocks_of sizes rows) }
{}
