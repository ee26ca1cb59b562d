// Damage.

/// What is damaged in a store, and where.
#[derive(Clone, Copy, Debug, PartialEq, Eq)]
pub enum Damage {
    /// The catalog's log, at the place behind an open gate.
    Catalog {
        at: u64,
    },
    /// The log of a table, at the place behind an open gate.
    Log {
        table: u32,
        at: u64,
    },
    /// A part's file keeps another hash of its body than the one found.
    PartHash {
        table: u32,
        part: u64,
        kept: u64,
        found: u64,
    },
    /// A part's file has no frame that fits, or a body off the grammar.
    PartShape {
        table: u32,
        part: u64,
    },
}
