// Several blocks as one.
ghost use Rattle.std.specs.Prelude.{◌≡◌, ◌++◌, IfOk};
ghost use Rattle.std.specs.List.{All, flat_map};
ghost use Rattle.chv_agg.specs.OfKinds.{AllAreOf};
ghost use Rattle.chv_merge.specs.NormalForms.{normal_form_of};

use crate::normal_by;
use chv_types::{Block, Engine, Kinds, Places};
use std::alloc::{AllocError, Global};
use std::collections::VecDeque;

/// The rows of all blocks as a table of this engine keeps them together. The blocks may be in normal form or not.
pub fn merge_blocks(
    alloc: Global,
    engine: Engine,
    kinds: &Kinds,
    key: &Places,
    blocks: Vec<Block>,
) -> Result<Block, AllocError>
    requires rows { All (AllAreOf kinds.now) blocks.items }
    ensures rows { IfOk result (λ rows. rows ≡ normal_form_of engine kinds.now key.now (flat_map (λ block. block) blocks.items)) }
    ensures kinds { IfOk result (λ rows. AllAreOf kinds.now rows) }
{
    normal_by(alloc, engine, kinds, key, joined(alloc, blocks)?)
}

// The rows of blocks, one block behind the other.
fn joined(alloc: Global, blocks: Vec<Block>) -> Result<Block, AllocError>
    ensures { IfOk result (λ rows. rows ≡ flat_map (λ block. block) blocks.items) }
{
    let mut left = VecDeque::from_vec(blocks);
    match left.pop_front() {
        Some(first) => append_all(first, left),
        None => Ok(Block::new(alloc)),
    }
}

// A block, and behind it the rows of others.
fn append_all(mut rows: Block, mut others: VecDeque<Block>) -> Result<Block, AllocError>
    ensures { IfOk result (λ all. all ≡ rows ++ flat_map (λ block. block) others.items) }
{
    while let Some(block) = others.pop_front() {
        rows.append(block)?;
    }
    Ok(rows)
}
