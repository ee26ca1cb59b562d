// Definitions of views.
use chv_ast::{Name, Select};

/// A view as its CREATE statement defines it.
#[derive(Drop)]
pub struct ViewDef {
    pub name: Name,
    /// The number of the table that it reads, from 1.
    pub source: u32,
    /// The number of the table that it fills, from 1.
    pub target: u32,
    pub select: Select,
}
