// Plans.
use chv_sip::BlockId;
use chv_types::Bytes;
use sqlite_items::Items;

/// One block for one table.
#[derive(Debug, Drop)]
pub struct Delivery {
    /// The number of the table.
    pub table: u32,
    /// What names the block.
    pub id: BlockId,
    /// How many rows the block has in normal form.
    pub rows: u64,
    /// The file of the part that holds them.
    pub encoded: Bytes,
}

/// Deliveries in order.
pub type Deliveries = Items<Delivery>;

/// What an INSERT brings.
#[derive(Debug, Drop)]
pub struct Plan {
    /// Its blocks, in the order in which they are delivered. There is one at least.
    pub deliveries: Deliveries,
}
