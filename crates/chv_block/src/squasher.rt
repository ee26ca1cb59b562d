// How the rows of an insert become blocks.
ghost use Rattle.std.specs.Prelude.{◌≡◌, ◌≢◌, ◌++◌, ◌∷◌, ◌≤◌, ◌-◌, ◌^◌, min, [], List, IfOk, OnErr};
ghost use Rattle.chv_types.specs.declared.value.Value.{Value as SomeValue};
ghost use Rattle.chv_block.specs.Blocks.{Sized, IsFed, and_block, blocks_of, bytes_in, is_closed, rows_of};

use chv_types::{Block, Row};
use std::alloc::{AllocError, Global};

/// How large the blocks of an insert are to be.
#[derive(Clone, Copy, Debug, PartialEq, Eq)]
pub struct Sizes {
    /// The rows of a piece, 1 or more.
    pub max_rows: u64,
    /// A group of pieces is closed once it has so many rows; 0 for no such minimum.
    pub min_rows: u64,
    /// A group of pieces is closed once its rows have so many bytes; 0 for no such minimum. Where both are 0, each piece is a
    /// group.
    pub min_bytes: u64,
}

/// Joins the rows of an insert into blocks: `new`, a `feed` for each row, and `finish`.
#[derive(Debug, Drop)]
pub struct Squasher {
    sizes: Sizes,
    // The rows of the open group, those of the open piece behind the others.
    rows: Block,
    // How many bytes they have, up to the greatest number of 64 bits.
    bytes: u64,
    // How many of them are in the open piece.
    in_piece: u64,
}

impl Squasher {
    /// No row was fed.
    pub fn new(alloc: Global, sizes: Sizes) -> Squasher
        requires some { 1 ≤ sizes.max_rows }
        ensures { IsFed sizes [] [] result }
    {
        Squasher {
            sizes,
            rows: Block::new(alloc),
            bytes: 0,
            in_piece: 0,
        }
    }

    /// Takes the next row, which has so many bytes, and answers the block that it closes, if it closes one. An `Err` leaves
    /// what was fed before.
    pub fn feed(&mut self, alloc: Global, row: Row, bytes: u64) -> Result<Option<Block>, AllocError>
        requires fed { (sizes : Sizes) × (fed : List Sized) × (given : List (List (List SomeValue))) × IsFed sizes fed given self.old }
        ensures fed { IfOk result (λ block. (sizes : Sizes) (fed : List Sized) (given : List (List (List SomeValue))) → IsFed sizes fed given self.old
            → IsFed sizes (fed ++ record { row = row; bytes = bytes } ∷ []) (and_block given block) self.new) }
        ensures some { IfOk result (λ block. block ≢ Some []) }
        ensures err { OnErr result (self.new ≡ self.old) }
    {
        self.rows.push(row)?;
        self.bytes = self.bytes.saturating_add(bytes);
        self.in_piece += 1;
        if self.in_piece < self.sizes.max_rows {
            return Ok(None);
        }
        self.in_piece = 0;
        if !self.is_closed() {
            return Ok(None);
        }
        self.bytes = 0;
        Ok(Some(std::mem::replace(&mut self.rows, Block::new(alloc))))
    }

    // Whether the group is closed that ends here.
    fn is_closed(&self) -> bool
        ensures { (group : List Sized) → self.now.rows ≡ rows_of group → self.now.bytes ≡ min (bytes_in group) (2 ^ 64 - 1) → result ≡ is_closed self.now.sizes group }
    {
        let Sizes {
            min_rows,
            min_bytes,
            ..
        } = self.sizes;
        (min_rows == 0 && min_bytes == 0)
            || (min_rows > 0 && self.rows.len() as u64 >= min_rows)
            || (min_bytes > 0 && self.bytes >= min_bytes)
    }

    /// The block of the rows that are left, if there are any. It takes no memory.
    pub fn finish(self) -> Option<Block>
        ensures finished { (sizes : Sizes) (fed : List Sized) (given : List (List (List SomeValue))) → IsFed sizes fed given self → blocks_of sizes fed ≡ and_block given result }
        ensures some { result ≢ Some [] }
    {
        let Squasher { rows, .. } = self;
        if rows.len() == 0 {
            return None;
        }
        Some(rows)
    }
}
