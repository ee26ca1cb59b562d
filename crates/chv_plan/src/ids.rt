// The ids of blocks.
ghost use Rattle.std.specs.Prelude.{◌≡◌, ◌≤◌, ◌<◌, false, length, IfOk};
ghost use Rattle.std.specs.List.{All};
ghost use Rattle.chv_block.specs.Spellings.{AllAreOf, block_spelling};
ghost use Rattle.chv_query.specs.Arrivals.{names_along};
ghost use Rattle.chv_query.specs.Plans.{is_long, source_of};
ghost use Rattle.chv_query.specs.Accepted.{IsCatalog};
ghost use Rattle.chv_sip.specs.BlockIds.{content_key, id_of, path_id, source_id};
ghost use Rattle.chv_catalog.specs.Paths.{MAX_PATH};

use chv_ast::Quoted;
use chv_block::block_bytes;
use chv_catalog::Schema;
use chv_sip::{Below, BlockId, id_of_content, id_of_token};
use chv_types::{Block, Kinds};
use std::alloc::{AllocError, Global};

/// The id of a block of a number in its insert: by the insert's token, of which the empty one is none, or by its content in
/// the order of arrival.
pub fn block_id(
    alloc: Global,
    kinds: &Kinds,
    token: &Option<Quoted>,
    number: u32,
    block: &Block,
) -> Result<BlockId, AllocError>
    requires rows { AllAreOf kinds.now block.now }
    requires token { is_long token.now ≡ false }
    ensures { IfOk result (λ id. id ≡ source_id (source_of kinds.now token.now number block.now)) }
{
    match token {
        Some(token) if token.len() > 0 => Ok(id_of_token(token.as_slice(), number)),
        _ => content_id(alloc, kinds, block),
    }
}

// The id of a block by its content, in the order of arrival.
fn content_id(alloc: Global, kinds: &Kinds, block: &Block) -> Result<BlockId, AllocError>
    requires rows { AllAreOf kinds.now block.now }
    ensures { IfOk result (λ id. id ≡ id_of (content_key (block_spelling kinds.now block.now))) }
{
    let bytes = block_bytes(alloc, kinds, block)?;
    Ok(id_of_content(bytes.as_slice()))
}

/// The id of a block along a path of views: by its id where it was inserted, and by their names.
pub fn id_along(schema: &Schema, id: BlockId, path: &[u32]) -> BlockId
    requires schema { IsCatalog schema.now.catalog }
    requires there { All (λ view. view < length schema.now.catalog.views) path.now }
    requires short { length path.now ≤ MAX_PATH }
    ensures { result ≡ path_id id (names_along schema.now.catalog path.now) }
{
    let mut below = Below::new(id, path.len() as u32);
    for view in path {
        below.name(schema.view_def(*view).name.as_slice());
    }
    below.finish()
}
