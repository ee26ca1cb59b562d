// Normal forms.
ghost use Rattle.std.specs.Prelude.{◌≡◌, IfOk, length, nat_lt};
ghost use Rattle.chv_agg.specs.OfKinds.{AllAreOf};
ghost use Rattle.chv_types.specs.Order.{row_cmp};
ghost use Rattle.chv_merge.specs.NormalForms.{key_cmp, normal_form, normal_form_of, values_at};

use crate::aggregating::aggregate;
use chv_types::{Block, Engine, Kinds, Places, Row, compare};
use std::alloc::{AllocError, Global};
use std::cmp::Ordering;

/// The rows of a block as a table of this engine keeps them: all of them in the order of the values at the places of `key`, and
/// where these are the same, of all values; or those of each key as one, whose states are the merge of theirs, in the order of
/// keys.
///
/// A place of no column is passed over. With no places all rows have the same key.
pub fn normal_by(
    alloc: Global,
    engine: Engine,
    kinds: &Kinds,
    key: &Places,
    block: Block,
) -> Result<Block, AllocError>
    requires rows { AllAreOf kinds.now block }
    ensures rows { IfOk result (λ rows. rows ≡ normal_form_of engine kinds.now key.now block) }
    ensures kinds { IfOk result (λ rows. AllAreOf kinds.now rows) }
{
    match engine {
        Engine::MergeTree => normal(key, block),
        Engine::Aggregating => aggregate(alloc, kinds, key, block),
    }
}

/// All rows of a block, in the order of the values at the places of `key`, and where these are the same, of all values.
///
/// A place of no column is passed over. With no places the rows go by all their values.
pub fn normal(key: &Places, block: Block) -> Result<Block, AllocError>
    ensures { IfOk result (λ rows. rows ≡ normal_form key.now block) }
{
    let mut rows = block.into_vec();
    rows.sort_by(|a, b| order(key, a, b))?;
    Ok(Block::from_vec(rows))
}

// The order of two rows.
#[tactic(auto, unfolding(crate::specs::NormalForms::key_cmp))]
fn order(key: &Places, a: &Row, b: &Row) -> Ordering
    ensures { result ≡ key_cmp key.now a.now b.now }
{
    match order_at(key.as_slice(), a, b) {
        Ordering::Equal => a.as_slice().cmp(b.as_slice()),
        found => found,
    }
}

/// The order of the values that two rows have at the places of a key.
pub(crate) fn order_at(key: &[u32], a: &Row, b: &Row) -> Ordering
    ensures { result ≡ row_cmp (values_at key.now a.now) (values_at key.now b.now) }
{
    let mut i = 0;
    let mut j = 0;
    while i < key.len() && j < key.len() {
        match (a.get(key[i] as usize), b.get(key[j] as usize)) {
            (Some(x), Some(y)) => match compare(x, y) {
                Ordering::Equal => {
                    i += 1;
                    j += 1;
                }
                found => return found,
            },
            (None, _) => i += 1,
            (_, None) => j += 1,
        }
    }
    has_value(&key[i..], a).cmp(&has_value(&key[j..], b))
}

// Whether a row has a value at one of the places.
fn has_value(places: &[u32], row: &Row) -> bool
    ensures { result ≡ nat_lt 0 (length (values_at places.now row.now)) }
{
    for place in places {
        if row.get(*place as usize).is_some() {
            return true;
        }
    }
    false
}
