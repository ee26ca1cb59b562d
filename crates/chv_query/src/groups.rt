// Groups.
use chv_group::AggCalls;
use sqlite_items::Items;

/// How the rows of a query that groups are made.
#[derive(Debug, Drop)]
pub struct Groups {
    /// How many of the values that are evaluated on a row are its key; the others are the arguments of the calls.
    pub keys: usize,
    /// The calls over the rows of a group.
    pub calls: AggCalls,
    /// The places of the output columns among the key and what the calls give.
    pub cells: Items<usize>,
    /// There is one row also over no rows.
    pub always: bool,
}
