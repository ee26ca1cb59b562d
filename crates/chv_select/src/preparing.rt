// Queries that are prepared.
ghost use Rattle.std.specs.Prelude.{◌≡◌};
ghost use Rattle.chv_query.specs.Bound.{AnswersAs};
ghost use Rattle.chv_query.specs.Queries.{asked_select};
ghost use Rattle.chv_select.specs.Answers.{IsPrepared};

use chv_ast::{Refusal, Select};
use chv_catalog::{Schema, StatementFault};
use chv_query::{Query, bind};
use std::alloc::Global;

/// A query that no check refuses.
#[derive(Drop)]
pub struct Prepared {
    pub(crate) query: Query,
}

impl Prepared {
    /// The number of the table that is asked, from 1.
    pub fn table(&self) -> u32
        ensures { result ≡ self.now.query.table }
    {
        self.query.table()
    }
}

/// Prepares a SELECT, or answers the first check that refuses it, which may be that it needs FINAL. It reads no row.
#[tactic(auto, unfolding(chv_query::specs::Queries::asked_select))]
pub fn prepare(alloc: Global, schema: &Schema, select: &Select) -> Result<Prepared, StatementFault>
    ensures { AnswersAs IsPrepared (asked_select schema.now.catalog select.now) result }
{
    let query = bind(alloc, schema, select)?;
    if query.needs_final(select) {
        return Err(StatementFault::Refused(Refusal::NeedsFinal));
    }
    Ok(Prepared { query })
}
