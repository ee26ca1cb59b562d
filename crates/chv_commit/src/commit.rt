// Commits.
use chv_sip::BlockId;
use sqlite_items::Items;

/// Ids in order.
pub type Ids = Items<BlockId>;

/// What one frame of a table's log says.
#[derive(Debug, Drop)]
pub enum Commit {
    /// New entries, one for each id, with a part of their own that holds so many rows.
    Add {
        part: u64,
        rows: u64,
        ids: Ids,
    },
    /// The parts of the entries from `lo` to `hi`, both counted, the first being 1, became one part of this level, which
    /// holds so many rows.
    Merge {
        lo: u64,
        hi: u64,
        part: u64,
        level: u64,
        rows: u64,
    },
}
