// Why a store was not opened.
use chv_catalog::Schema;
use chv_table::TableFault;

/// Why a store was not opened.
#[derive(Drop)]
pub struct OpenFault {
    /// The fault; damage is that of the first log that is damaged.
    pub fault: TableFault,
    /// The tables that were read from the catalog before it. Where the log of a table is damaged, they are all.
    pub schema: Schema,
}
