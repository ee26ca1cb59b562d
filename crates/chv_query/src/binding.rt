// Queries that are bound to their tables.
ghost use Rattle.chv_query.specs.Bound.{AnswersAs, IsQuery};
ghost use Rattle.chv_query.specs.Queries.{asked, asked_of};

use crate::Query;
use crate::merge_blind::is_blind;
use crate::order::{bind_limit, bind_order};
use crate::output::bind_filter;
use crate::shape::bind_shape;
use chv_ast::{Refusal, Select};
use chv_catalog::{Schema, StatementFault, TableDef};
use std::alloc::Global;

/// The query of a SELECT, or the first check that refuses it: FROM, WHERE, GROUP BY, the items, ORDER BY and LIMIT, each from
/// left to right.
pub fn bind(alloc: Global, schema: &Schema, select: &Select) -> Result<Query, StatementFault>
    ensures { AnswersAs IsQuery (asked schema.now.catalog select.now) result }
{
    match schema.table(select.table.as_slice()) {
        Some(table) => bind_to(alloc, table, schema.table_def(table), select),
        None => Err(StatementFault::Refused(Refusal::UnknownTable)),
    }
}

// The query of a SELECT to a table of this number.
fn bind_to(
    alloc: Global,
    table: u32,
    def: &TableDef,
    select: &Select,
) -> Result<Query, StatementFault>
    ensures { AnswersAs IsQuery (asked_of table def.now select.now) result }
{
    let filter = bind_filter(alloc, &def.columns, select.filter.as_ref())?;
    let shape = bind_shape(alloc, &def.columns, select)?;
    let order = bind_order(alloc, &shape.columns, select.order.as_slice())?;
    let limit = bind_limit(select.limit.as_ref())?;
    let blind = is_blind(def, select, shape.grouping.as_ref());
    Ok(Query {
        table,
        engine: def.engine,
        columns: shape.columns,
        filter,
        terms: shape.terms,
        grouping: shape.grouping,
        order,
        limit,
        blind,
    })
}
