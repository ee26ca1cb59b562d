// Links between tables.

/// The tables that a view links.
#[derive(Clone, Copy, Debug, PartialEq, Eq)]
pub struct Link {
    /// The number of the table that it reads, from 1.
    pub source: u32,
    /// The number of the table that it fills, from 1.
    pub target: u32,
}
