// Definitions.
use crate::{TableDef, ViewDef};

/// What a CREATE statement defines.
#[derive(Drop)]
pub enum Definition {
    Table(TableDef),
    View(ViewDef),
}
