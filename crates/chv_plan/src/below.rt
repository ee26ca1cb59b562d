// Blocks along paths.
ghost use Rattle.std.specs.Prelude.{◌≡◌, ◌≤◌, ◌<◌, ◌+◌, ◌++◌, ◌∷◌, [], false, true, length, slice_get, Some, IfOk, IfErr};
ghost use Rattle.std.specs.List.{All};
ghost use Rattle.chv_ast.specs.declared.refusal.Refusal.{Refusal};
ghost use Rattle.chv_block.specs.Spellings.{AllAreOf};
ghost use Rattle.chv_catalog.specs.Paths.{MAX_PATH, links_of, paths_within};
ghost use Rattle.chv_catalog.specs.declared.view_def.ViewDef.{ViewDef as SomeView};
ghost use Rattle.chv_query.specs.Derived.{divides_in, form_at, through};
ghost use Rattle.chv_query.specs.Accepted.{IsCatalog};
ghost use Rattle.chv_plan.specs.Below.{AreHeld, IsBlockOf, IsHeld, Refuses, paths_through};
ghost use Rattle.chv_plan.specs.Bound.{AreBound, AreThere, IsThere};

use crate::Delivery;
use crate::ids::id_along;
use crate::views::BoundSchema;
use chv_ast::Refusal;
use chv_catalog::{Schema, StatementFault};
use chv_merge::normal_by;
use chv_part::encode_part;
use chv_query::{BlockFault, run_view};
use chv_sip::BlockId;
use chv_types::{Block, Kinds};
use std::alloc::{AllocError, Global};

/// What is derived from a block along each path of so many views at most that goes on from a table. To there a path led, along
/// which these rows were derived. Each block is derived once, whatever goes on from it.
#[cycle(below)]
pub fn deliveries_below(
    bound: &BoundSchema,
    id: BlockId,
    room: u32,
    table: u32,
    path: &[u32],
    rows: &Block,
) -> Result<Vec<Delivery>, StatementFault>
    requires schema { IsCatalog bound.now.schema.now.catalog }
    requires bound { AreBound bound.now.schema.now.catalog bound.now.views.items }
    requires views { AreThere bound.now.views.items (paths_within room (links_of bound.now.schema.now.catalog.views) table) }
    requires there { All (λ view. view < length bound.now.schema.now.catalog.views) path.now }
    requires short { length path.now + room ≤ MAX_PATH }
    requires rows { IsBlockOf (form_at bound.now.schema.now.catalog table) rows.now }
    ensures held { IfOk result (λ held. AreHeld bound.now.schema.now.catalog id path.now rows.now held.items (paths_within room (links_of bound.now.schema.now.catalog.views) table)) }
    ensures refused { IfErr result (λ fault. Refuses bound.now.schema.now.catalog rows.now (paths_within room (links_of bound.now.schema.now.catalog.views) table) fault) }
{
    let mut deliveries = Vec::new(bound.alloc);
    if room == 0 {
        return Ok(deliveries);
    }
    for view in 0..bound.schema.views() {
        if bound.schema.view_def(view).source == table {
            let mut more = deliveries_through(bound, id, room - 1, view, path, rows)?;
            deliveries.append(&mut more)?;
        }
    }
    Ok(deliveries)
}

// What is derived from a block along each path that goes on by a view, with so many views at most behind it.
#[cycle(below)]
fn deliveries_through(
    bound: &BoundSchema,
    id: BlockId,
    room: u32,
    view: u32,
    path: &[u32],
    rows: &Block,
) -> Result<Vec<Delivery>, StatementFault>
    requires schema { IsCatalog bound.now.schema.now.catalog }
    requires bound { AreBound bound.now.schema.now.catalog bound.now.views.items }
    requires views { AreThere bound.now.views.items (paths_through room (links_of bound.now.schema.now.catalog.views) view) }
    requires there { All (λ view. view < length bound.now.schema.now.catalog.views) path.now }
    requires last { view < length bound.now.schema.now.catalog.views }
    requires short { length path.now + room < MAX_PATH }
    requires rows { (def : SomeView) → slice_get bound.now.schema.now.catalog.views view ≡ Some def → IsBlockOf (form_at bound.now.schema.now.catalog def.source) rows.now }
    ensures held { IfOk result (λ held. AreHeld bound.now.schema.now.catalog id path.now rows.now held.items (paths_through room (links_of bound.now.schema.now.catalog.views) view)) }
    ensures refused { IfErr result (λ fault. Refuses bound.now.schema.now.catalog rows.now (paths_through room (links_of bound.now.schema.now.catalog.views) view) fault) }
{
    let alloc = bound.alloc;
    let schema = bound.schema;
    let made = made_by(bound, view, rows)?;
    if made.len() == 0 {
        return Ok(Vec::new(alloc));
    }
    let path = longer(alloc, path, view)?;
    let target = schema.view_def(view).target;
    // What is below sees the rows as they arrive, before they are put into normal form.
    let below = deliveries_below(bound, id, room, target, &path, &made)?;
    let id = id_along(schema, id, &path);
    let first = delivery_to(
        alloc,
        schema,
        target,
        &bound.bound_view(view).kinds,
        id,
        made,
    )?;
    Ok(put_first(alloc, first, below)?)
}

// What a view makes of rows of its source.
fn made_by(bound: &BoundSchema, view: u32, rows: &Block) -> Result<Block, StatementFault>
    requires schema { IsCatalog bound.now.schema.now.catalog }
    requires bound { AreBound bound.now.schema.now.catalog bound.now.views.items }
    requires there { IsThere bound.now.views.items view }
    requires last { view < length bound.now.schema.now.catalog.views }
    requires rows { (def : SomeView) → slice_get bound.now.schema.now.catalog.views view ≡ Some def → IsBlockOf (form_at bound.now.schema.now.catalog def.source) rows.now }
    ensures made { IfOk result (λ made. made ≡ through bound.now.schema.now.catalog (slice_get bound.now.schema.now.catalog.views view) rows.now) }
    ensures sound { IfOk result (λ made. divides_in bound.now.schema.now.catalog (slice_get bound.now.schema.now.catalog.views view) rows.now ≡ false) }
    ensures refused { IfErr result (λ fault. (refusal : Refusal) → fault ≡ StatementFault.Refused refusal → (refusal ≡ Refusal.DivisionByZero) × (divides_in bound.now.schema.now.catalog (slice_get bound.now.schema.now.catalog.views view) rows.now ≡ true)) }
{
    match run_view(bound.alloc, &bound.bound_view(view).query, rows) {
        Ok(made) => Ok(made),
        Err(BlockFault::ZeroDivisor { row: _ }) => {
            Err(StatementFault::Refused(Refusal::DivisionByZero))
        }
        Err(BlockFault::NoMemory) => Err(StatementFault::NoMemory),
    }
}

// A path with a view more.
fn longer(alloc: Global, path: &[u32], view: u32) -> Result<Vec<u32>, AllocError>
    ensures { IfOk result (λ longer. longer.items ≡ path.now ++ view ∷ []) }
{
    let mut longer = Vec::with_capacity(alloc, path.len() + 1)?;
    longer.extend_from_slice(path)?;
    longer.push(view)?;
    Ok(longer)
}

/// Rows as a delivery to a table under an id.
pub fn delivery_to(
    alloc: Global,
    schema: &Schema,
    table: u32,
    kinds: &Kinds,
    id: BlockId,
    rows: Block,
) -> Result<Delivery, AllocError>
    requires first { 1 ≤ table }
    requires last { table ≤ length schema.now.catalog.tables }
    requires kinds { kinds.now ≡ (form_at schema.now.catalog table).kinds }
    requires rows { AllAreOf kinds.now rows }
    ensures { IfOk result (λ held. IsHeld (form_at schema.now.catalog table) table id rows held) }
{
    let def = schema.table_def(table);
    let rows = normal_by(alloc, def.engine, kinds, &def.key, rows)?;
    // Whether the block is skipped is decided as it is delivered, and no delivery takes memory.
    let encoded = encode_part(alloc, kinds, &rows)?;
    Ok(Delivery {
        table,
        id,
        rows: rows.len() as u64,
        encoded,
    })
}

/// A delivery in front of others.
pub fn put_first(
    alloc: Global,
    first: Delivery,
    mut others: Vec<Delivery>,
) -> Result<Vec<Delivery>, AllocError>
    ensures { IfOk result (λ deliveries. deliveries.items ≡ first ∷ others.items) }
{
    let mut deliveries = Vec::new(alloc);
    deliveries.push(first)?;
    deliveries.append(&mut others)?;
    Ok(deliveries)
}
