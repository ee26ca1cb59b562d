// Views whose queries are bound.
ghost use Rattle.std.specs.Prelude.{◌≡◌, ◌<◌, length, slice_get, None, Some, IfOk, IfErr, OnOk};
ghost use Rattle.std.specs.List.{All};
ghost use Rattle.chv_catalog.specs.Paths.{links_of, paths_from};
ghost use Rattle.chv_catalog.specs.declared.view_def.ViewDef.{ViewDef as SomeView};
ghost use Rattle.chv_query.specs.Accepted.{IsCatalog};
ghost use Rattle.chv_plan.specs.Bound.{AreBound, AreThere, BindsMore, IsBound, IsThere};

use chv_catalog::{Schema, StatementFault};
use chv_query::{ViewQuery, bind_view};
use chv_types::Kinds;
use std::alloc::{AllocError, Global};

/// A view whose query is bound.
#[derive(Drop)]
pub struct BoundView {
    pub query: ViewQuery,
    /// The kinds of its target's columns.
    pub kinds: Kinds,
}

/// A schema, and the views to which paths lead from one of its tables.
#[derive(Drop)]
pub struct BoundSchema<'a> {
    pub alloc: Global,
    pub schema: &'a Schema,
    /// A place for each view, by its number; None where no path leads to it.
    pub views: Vec<Option<BoundView>>,
}

impl<'a> BoundSchema<'a> {
    /// The view of a number, which is bound.
    pub fn bound_view(&self, view: u32) -> &BoundView
        requires there { IsThere self.now.views.items view }
        ensures { slice_get self.now.views.items view ≡ Some (Some result.now) }
    {
        match &self.views[view as usize] {
            Some(bound) => bound,
            None => unreachable!(),
        }
    }
}

/// The views of a schema by their numbers, those on the paths from a table being bound. No check refuses their queries.
pub fn bind_views(
    alloc: Global,
    schema: &Schema,
    table: u32,
) -> Result<Vec<Option<BoundView>>, StatementFault>
    requires schema { IsCatalog schema.now.catalog }
    ensures bound { IfOk result (λ bound. AreBound schema.now.catalog bound.items) }
    ensures all { IfOk result (λ bound. AreThere bound.items (paths_from (links_of schema.now.catalog.views) table)) }
    ensures refused { IfErr result (λ fault. fault ≡ StatementFault.NoMemory) }
{
    let paths = schema.paths(alloc, table)?;
    let mut bound = none_bound(alloc, schema.views())?;
    for path in paths.as_slice() {
        bind_along(alloc, schema, path.as_slice(), &mut bound)?;
    }
    Ok(bound)
}

// A place for each of so many views, none of which is bound.
fn none_bound(alloc: Global, count: u32) -> Result<Vec<Option<BoundView>>, AllocError>
    ensures places { IfOk result (λ bound. length bound.items ≡ count) }
    ensures none { IfOk result (λ bound. All (λ view. view ≡ None) bound.items) }
{
    let mut bound = Vec::with_capacity(alloc, count as usize)?;
    for _ in 0..count {
        bound.push(None)?;
    }
    Ok(bound)
}

// Binds the views on a path.
fn bind_along(
    alloc: Global,
    schema: &Schema,
    path: &[u32],
    bound: &mut Vec<Option<BoundView>>,
) -> Result<(), StatementFault>
    requires schema { IsCatalog schema.now.catalog }
    requires bound { AreBound schema.now.catalog bound.old.items }
    requires there { All (λ view. view < length schema.now.catalog.views) path.now }
    ensures more { OnOk result (BindsMore schema.now.catalog bound.old.items bound.new.items) }
    ensures there { OnOk result (All (IsThere bound.new.items) path.now) }
    ensures refused { IfErr result (λ fault. fault ≡ StatementFault.NoMemory) }
{
    for view in path {
        bind_once(alloc, schema, *view, bound)?;
    }
    Ok(())
}

// Binds the view of a number, where it is not bound yet.
fn bind_once(
    alloc: Global,
    schema: &Schema,
    view: u32,
    bound: &mut Vec<Option<BoundView>>,
) -> Result<(), StatementFault>
    requires schema { IsCatalog schema.now.catalog }
    requires bound { AreBound schema.now.catalog bound.old.items }
    requires last { view < length schema.now.catalog.views }
    ensures more { OnOk result (BindsMore schema.now.catalog bound.old.items bound.new.items) }
    ensures there { OnOk result (IsThere bound.new.items view) }
    ensures refused { IfErr result (λ fault. fault ≡ StatementFault.NoMemory) }
{
    if bound[view as usize].is_some() {
        return Ok(());
    }
    let new = bind_at(alloc, schema, view)?;
    bound[view as usize] = Some(new);
    Ok(())
}

// The view of a number.
fn bind_at(alloc: Global, schema: &Schema, view: u32) -> Result<BoundView, StatementFault>
    requires schema { IsCatalog schema.now.catalog }
    requires last { view < length schema.now.catalog.views }
    ensures bound { IfOk result (λ bound. (def : SomeView) → slice_get schema.now.catalog.views view ≡ Some def → IsBound schema.now.catalog def bound) }
    ensures refused { IfErr result (λ fault. fault ≡ StatementFault.NoMemory) }
{
    let def = schema.view_def(view);
    let target = schema.table_def(def.target);
    let query = bind_view(alloc, schema, def, target)?;
    let kinds = target.kinds(alloc)?;
    Ok(BoundView { query, kinds })
}
