// INSERT.
ghost use Rattle.std.specs.Prelude.{◌≡◌, ◌≤◌, List, false, true, length, Some, Ok, Err, IfOk, IfErr, OnOk};
ghost use Rattle.std.specs.List.{All, list_any};
ghost use Rattle.chv_ast.specs.declared.refusal.Refusal.{Refusal};
ghost use Rattle.chv_ast.specs.Formed.{FormedInsert};
ghost use Rattle.chv_block.specs.Blocks.{and_block, blocks_of};
ghost use Rattle.chv_catalog.specs.Paths.{links_of, paths_from};
ghost use Rattle.chv_catalog.specs.Schemas.{kinds_of};
ghost use Rattle.chv_part.specs.Books.{MAX_ROWS};
ghost use Rattle.chv_types.specs.declared.value.Value.{Value as SomeValue};
ghost use Rattle.chv_query.specs.Derived.{def_at, form_at};
ghost use Rattle.chv_query.specs.Plans.{AreBlocks, Delivery as Planned, block_deliveries, deliveries_of, divides_below, planned, planned_for, rows_for, sized_rows, is_long, source_of};
ghost use Rattle.chv_query.specs.Accepted.{IsCatalog};
ghost use Rattle.chv_plan.specs.Below.{HoldsAll, IsBlockOf};
ghost use Rattle.chv_plan.specs.Blocks.{Brings};
ghost use Rattle.chv_plan.specs.Bound.{AreBound, AreThere};
ghost use Rattle.chv_plan.specs.Deliveries.{DeliversAll};
ghost use Rattle.chv_plan.specs.Places.{ArePlaces};

use crate::below::{deliveries_below, delivery_to, put_first};
use crate::columns::filled_places;
use crate::ids::block_id;
use crate::row::row_for;
use crate::settings::{is_long, sizes_for};
use crate::views::{BoundSchema, bind_views};
use crate::{Delivery, Plan};
use chv_ast::{Insert, LiteralRow, Quoted, Refusal};
use chv_block::{Sizes, Squasher, row_size};
use chv_catalog::{Schema, StatementFault, TableDef};
use chv_types::{Block, Kind, Kinds};
use sqlite_items::Items;
use std::alloc::{AllocError, Global};

// The most rows that an INSERT has.
const MAX_ROWS: usize = 1048576;

// The most views on a path.
const MAX_PATH: u32 = 8;

/// What an INSERT brings to its table, and to those below views: blocks that are ready to be delivered, in order. It is refused
/// by the first check that holds.
#[tactic(auto, unfolding(chv_query::specs::Plans::planned))]
pub fn plan_insert(alloc: Global, schema: &Schema, insert: &Insert) -> Result<Plan, StatementFault>
    requires formed { FormedInsert insert.now }
    requires schema { IsCatalog schema.now.catalog }
    ensures planned { IfOk result (λ held. (plan : List Planned) × (planned schema.now.catalog insert.now ≡ Ok plan) × DeliversAll schema.now.catalog held.deliveries plan) }
    ensures count { IfOk result (λ held. 1 ≤ length held.deliveries) }
    ensures refused { IfErr result (λ fault. (refusal : Refusal) → fault ≡ StatementFault.Refused refusal → planned schema.now.catalog insert.now ≡ Err refusal) }
{
    match schema.table(insert.table.as_slice()) {
        Some(number) => plan_for(alloc, schema, number, schema.table_def(number), insert),
        None => Err(StatementFault::Refused(Refusal::UnknownTable)),
    }
}

// What an INSERT brings to the table of a number and this definition, and to those below views.
fn plan_for(
    alloc: Global,
    schema: &Schema,
    table: u32,
    def: &TableDef,
    insert: &Insert,
) -> Result<Plan, StatementFault>
    requires schema { IsCatalog schema.now.catalog }
    requires table { (1 ≤ table) × (def_at schema.now.catalog table ≡ Some def.now) }
    requires some { 1 ≤ length insert.now.rows }
    requires few { length (kinds_of def.now) ≤ 64 }
    ensures planned { IfOk result (λ held. Brings schema.now.catalog table def.now insert.now held.deliveries) }
    ensures refused { IfErr result (λ fault. (refusal : Refusal) → fault ≡ StatementFault.Refused refusal → planned_for schema.now.catalog table def.now insert.now ≡ Err refusal) }
{
    let places = filled_places(alloc, def.columns.as_slice(), &insert.columns)?;
    let sizes = sizes_for(&insert.settings)?;
    if is_long(&insert.settings.token) || insert.rows.len() > MAX_ROWS {
        return Err(StatementFault::Refused(Refusal::LimitPassed));
    }
    let kinds = def.kinds(alloc)?;
    let rows = insert.rows.as_slice();
    let blocks = blocks_for(alloc, kinds.as_slice(), places.as_slice(), sizes, rows)?;
    let deliveries = deliveries_of(alloc, schema, table, &kinds, &insert.settings.token, blocks)?;
    Ok(Plan { deliveries })
}

// The blocks of the rows that lists of literals write, each at these places of columns of these kinds.
fn blocks_for(
    alloc: Global,
    kinds: &[Kind],
    places: &[u32],
    sizes: Sizes,
    rows: &[LiteralRow],
) -> Result<Vec<Block>, StatementFault>
    requires few { length kinds.now ≤ 64 }
    requires places { ArePlaces (length kinds.now) places.now }
    requires sizes { 1 ≤ sizes.max_rows }
    ensures blocks { IfOk result (λ blocks. (written : List (List SomeValue)) × (rows_for kinds.now places.now rows.now ≡ Ok written)
        × (blocks.items ≡ blocks_of sizes (sized_rows kinds.now written))) }
    ensures each { IfOk result (λ blocks. AreBlocks kinds.now (length rows.now) blocks.items) }
    ensures some { IfOk result (λ blocks. 1 ≤ length rows.now → 1 ≤ length blocks.items) }
    ensures refused { IfErr result (λ fault. (refusal : Refusal) → fault ≡ StatementFault.Refused refusal → rows_for kinds.now places.now rows.now ≡ Err refusal) }
{
    let mut squasher = Squasher::new(alloc, sizes);
    let mut blocks = Vec::new(alloc);
    for literals in rows {
        let row = row_for(alloc, kinds, places, literals.as_slice())?;
        let size = row_size(kinds, &row);
        put_block(&mut blocks, squasher.feed(alloc, row, size)?)?;
    }
    put_block(&mut blocks, squasher.finish())?;
    Ok(blocks)
}

// Puts a block behind others, where there is one.
fn put_block(blocks: &mut Vec<Block>, block: Option<Block>) -> Result<(), AllocError>
    ensures { OnOk result (blocks.new.items ≡ and_block blocks.old.items block) }
{
    if let Some(block) = block {
        blocks.push(block)?;
    }
    Ok(())
}

// Blocks as deliveries, in order: each to the table of a number, and then along each path from there.
fn deliveries_of(
    alloc: Global,
    schema: &Schema,
    table: u32,
    kinds: &Kinds,
    token: &Option<Quoted>,
    blocks: Vec<Block>,
) -> Result<Items<Delivery>, StatementFault>
    requires schema { IsCatalog schema.now.catalog }
    requires table { (1 ≤ table) × (table ≤ length schema.now.catalog.tables) }
    requires kinds { kinds.now ≡ (form_at schema.now.catalog table).kinds }
    requires blocks { All (IsBlockOf (form_at schema.now.catalog table)) blocks.items }
    requires few { length blocks.items ≤ MAX_ROWS }
    requires token { is_long token.now ≡ false }
    ensures held { IfOk result (λ held. HoldsAll schema.now.catalog held (deliveries_of schema.now.catalog table kinds.now token.now 0 blocks.items)) }
    ensures sound { IfOk result (λ held. list_any (divides_below schema.now.catalog table) blocks.items ≡ false) }
    ensures refused { IfErr result (λ fault. (refusal : Refusal) → fault ≡ StatementFault.Refused refusal → (refusal ≡ Refusal.DivisionByZero) × (list_any (divides_below schema.now.catalog table) blocks.items ≡ true)) }
{
    let views = bind_views(alloc, schema, table)?;
    let bound = BoundSchema {
        alloc,
        schema,
        views,
    };
    let mut deliveries = Vec::with_capacity(alloc, blocks.len())?;
    let mut number = 0;
    for block in blocks {
        let mut more = block_deliveries(&bound, table, kinds, token, number, block)?;
        deliveries.append(&mut more)?;
        number += 1;
    }
    Ok(Items::from_vec(deliveries))
}

// A block of a number in its insert as deliveries: to the table of a number, and then along each path from there.
fn block_deliveries(
    bound: &BoundSchema,
    table: u32,
    kinds: &Kinds,
    token: &Option<Quoted>,
    number: u32,
    block: Block,
) -> Result<Vec<Delivery>, StatementFault>
    requires schema { IsCatalog bound.now.schema.now.catalog }
    requires bound { AreBound bound.now.schema.now.catalog bound.now.views.items }
    requires views { AreThere bound.now.views.items (paths_from (links_of bound.now.schema.now.catalog.views) table) }
    requires table { (1 ≤ table) × (table ≤ length bound.now.schema.now.catalog.tables) }
    requires kinds { kinds.now ≡ (form_at bound.now.schema.now.catalog table).kinds }
    requires rows { IsBlockOf (form_at bound.now.schema.now.catalog table) block }
    requires token { is_long token.now ≡ false }
    ensures held { IfOk result (λ held. HoldsAll bound.now.schema.now.catalog held.items (block_deliveries bound.now.schema.now.catalog table (source_of kinds.now token.now number block) block)) }
    ensures sound { IfOk result (λ held. divides_below bound.now.schema.now.catalog table block ≡ false) }
    ensures refused { IfErr result (λ fault. (refusal : Refusal) → fault ≡ StatementFault.Refused refusal → (refusal ≡ Refusal.DivisionByZero) × (divides_below bound.now.schema.now.catalog table block ≡ true)) }
{
    let alloc = bound.alloc;
    let schema = bound.schema;
    let id = block_id(alloc, kinds, token, number, &block)?;
    // What is below sees the rows as they arrive, before they are put into normal form.
    let below = deliveries_below(bound, id, MAX_PATH, table, &[], &block)?;
    let first = delivery_to(alloc, schema, table, kinds, id, block)?;
    Ok(put_first(alloc, first, below)?)
}
