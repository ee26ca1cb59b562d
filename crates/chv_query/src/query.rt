// Queries.
ghost use Rattle.std.specs.Prelude.{◌≡◌};
ghost use Rattle.chv_query.specs.Bound.{IsQuery};
ghost use Rattle.chv_query.specs.Queries.{Asked, is_merge_blind, joins_rows, needs_final};

use crate::Groups;
use chv_ast::Select;
use chv_expr::Bound;
use chv_types::{Columns, Engine};
use sqlite_items::Items;

/// A column to sort by.
#[derive(Clone, Copy, Debug, PartialEq, Eq)]
pub struct Sort {
    /// The place of the output column, from 0.
    pub place: usize,
    /// Descending.
    pub down: bool,
}

/// A query that is bound to its table.
#[derive(Drop)]
pub struct Query {
    pub(crate) table: u32,
    pub(crate) engine: Engine,
    pub(crate) columns: Columns,
    pub(crate) filter: Option<Bound>,
    pub(crate) terms: Items<Bound>,
    pub(crate) grouping: Option<Groups>,
    pub(crate) order: Items<Sort>,
    pub(crate) limit: Option<u64>,
    pub(crate) blind: bool,
}

impl Query {
    /// The number of its table, from 1.
    pub fn table(&self) -> u32
        ensures { result ≡ self.now.table }
    {
        self.table
    }

    /// The names and kinds of its output columns.
    pub fn columns(&self) -> &Columns
        ensures { result.now ≡ self.now.columns }
    {
        &self.columns
    }

    /// The columns to sort by, the most telling first.
    pub fn order(&self) -> &[Sort]
        ensures { result.now ≡ self.now.order }
    {
        self.order.as_slice()
    }

    /// How many rows are shown at most.
    pub fn limit(&self) -> Option<u64>
        ensures { result ≡ self.now.limit }
    {
        self.limit
    }

    /// Whether it does not see which rows of its table merges have made one: it groups, WHERE and GROUP BY use only columns of
    /// the sorting key, and each call takes states.
    pub fn merge_blind(&self) -> bool
        ensures { (asked : Asked) → IsQuery self.now asked → result ≡ is_merge_blind asked }
    {
        self.blind
    }

    /// Whether it needs FINAL, as the query of this statement: merges make rows of its table one, it might see which, and it has
    /// no FINAL.
    pub fn needs_final(&self, select: &Select) -> bool
        ensures { (asked : Asked) → IsQuery self.now asked → result ≡ needs_final select.now asked }
    {
        joins_rows(self.engine) && !select.merged && !self.merge_blind()
    }
}

// Whether merges of a table make rows one.
fn joins_rows(engine: Engine) -> bool
    ensures { result ≡ joins_rows engine }
{
    match engine {
        Engine::MergeTree => false,
        Engine::Aggregating => true,
    }
}
