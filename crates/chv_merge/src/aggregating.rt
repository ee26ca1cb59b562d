// The rows of each key as one.
ghost use Rattle.std.specs.Prelude.{◌≡◌, IfOk};
ghost use Rattle.std.specs.List.Sorted.{IsPermutation, IsSortedBy};
ghost use Rattle.chv_agg.specs.OfKinds.{AllAreOf};
ghost use Rattle.chv_merge.specs.NormalForms.{aggregated, before};

use crate::adjacent::merge_adjacent;
use crate::normal_form::order_at;
use chv_types::{Block, Kinds, Places, Row};
use std::alloc::{AllocError, Global};

/// The rows of each key as one, in the order of keys.
pub(crate) fn aggregate(
    alloc: Global,
    kinds: &Kinds,
    key: &Places,
    block: Block,
) -> Result<Block, AllocError>
    requires rows { AllAreOf kinds.now block }
    ensures rows { IfOk result (λ rows. rows ≡ aggregated kinds.now key.now block) }
    ensures kinds { IfOk result (λ rows. AllAreOf kinds.now rows) }
{
    let rows = in_key_order(key, block.into_vec())?;
    Ok(Block::from_vec(merge_adjacent(alloc, kinds, key, rows)?))
}

// Rows in the order of their keys.
fn in_key_order(key: &Places, mut rows: Vec<Row>) -> Result<Vec<Row>, AllocError>
    ensures moved { IfOk result (λ sorted. IsPermutation rows.items sorted.items) }
    ensures sorted { IfOk result (λ sorted. IsSortedBy (before key.now) sorted.items) }
{
    rows.sort_by(|a, b| order_at(key.as_slice(), a, b))?;
    Ok(rows)
}
