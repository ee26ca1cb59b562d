// Live parts.

/// A live part: it holds the entries from `lo` to `hi`, both counted, the first being 1.
#[derive(Clone, Copy, Debug, PartialEq, Eq)]
pub struct PartRow {
    pub lo: u64,
    pub hi: u64,
    /// How often its rows were merged: 0 for the part that new entries came with.
    pub level: u64,
    /// The number of its file.
    pub part: u64,
    /// How many rows it has.
    pub rows: u64,
}
