// Definitions of tables.
ghost use Rattle.std.specs.Prelude.{◌≡◌, IfOk};
ghost use Rattle.chv_catalog.specs.Schemas.{kinds_of};

use chv_ast::Name;
use chv_types::{Columns, Engine, Kinds, Places};
use std::alloc::{AllocError, Global};

/// A table as its CREATE statement defines it.
#[derive(Debug, Drop)]
pub struct TableDef {
    pub name: Name,
    /// From 1 to 64 columns, whose names differ.
    pub columns: Columns,
    pub engine: Engine,
    /// The places of the sorting key's columns, in key order.
    pub key: Places,
    /// How many of its last block ids are kept; 0 where none is.
    pub window: u32,
}

impl TableDef {
    /// The kinds of the columns, in their order.
    pub fn kinds(&self, alloc: Global) -> Result<Kinds, AllocError>
        ensures { IfOk result (λ kinds. kinds ≡ kinds_of self.now) }
    {
        let mut kinds = Vec::with_capacity(alloc, self.columns.len())?;
        for column in self.columns.as_slice() {
            kinds.push(column.kind)?;
        }
        Ok(Kinds::from_vec(kinds))
    }
}
