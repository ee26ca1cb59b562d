// Columns and rows of tables.
use crate::{Kind, Value};
use sqlite_items::Items;

/// Bytes in order.
pub type Bytes = Items<u8>;
/// The values of a row, one for each column.
pub type Row = Items<Value>;
/// The columns of a table, in order.
pub type Columns = Items<Column>;
/// The kinds of columns, in order.
pub type Kinds = Items<Kind>;
/// Places of columns, counted from 0.
pub type Places = Items<u32>;

/// A column of a table.
#[derive(Debug, Drop)]
pub struct Column {
    /// Its name, without backquotes.
    pub name: Bytes,
    /// The kind of its values.
    pub kind: Kind,
}

/// What a merge does with the rows of a table.
#[derive(Clone, Copy, Debug, PartialEq, Eq)]
pub enum Engine {
    /// It keeps all rows, in the order of the key.
    MergeTree,
    /// It makes the rows of each key one, whose states are the merge of theirs.
    Aggregating,
}
