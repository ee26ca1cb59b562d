// Statements.
use crate::{Digits, Expr, Literal, Name, Quoted};
use sqlite_items::Items;

/// The names of a list in order.
pub type Names = Items<Name>;
/// The columns of a table in order.
pub type ColumnDefs = Items<ColumnDef>;
/// The literals of a row in order.
pub type LiteralRow = Items<Literal>;
/// The rows of an insert in order.
pub type LiteralRows = Items<LiteralRow>;

/// The name of a column's kind.
#[derive(Debug, Drop)]
pub enum KindWord {
    Plain(Name),
    /// `AggregateFunction(function)` or `AggregateFunction(function, arg)`.
    Agg { function: Name, arg: Option<Name> },
}

/// A column as it is written.
#[derive(Debug, Drop)]
pub struct ColumnDef {
    pub name: Name,
    pub kind: KindWord,
}

/// The engine of a table.
#[derive(Clone, Copy, Debug, PartialEq, Eq)]
pub enum EngineWord {
    MergeTree,
    AggregatingMergeTree,
}

/// The settings of an insert. A setting that is not written is None, or has its default.
#[derive(Debug, Drop)]
pub struct Settings {
    /// `insert_deduplication_token`.
    pub token: Option<Quoted>,
    /// `async_insert`; false where it is not written.
    pub later: bool,
    /// `wait_for_async_insert`; true where it is not written.
    pub waits: bool,
    /// `max_insert_block_size`, in rows.
    pub max_rows: Option<Digits>,
    /// `min_insert_block_size_rows`.
    pub min_rows: Option<Digits>,
    /// `min_insert_block_size_bytes`.
    pub min_bytes: Option<Digits>,
}

/// One item of a select.
#[derive(Drop)]
pub enum Item {
    /// `*`: all columns.
    All,
    One { expr: Expr, alias: Option<Name> },
}

/// One name that an answer is sorted by.
#[derive(Debug, Drop)]
pub struct Order {
    pub name: Name,
    /// Descending.
    pub down: bool,
}

/// A query.
#[derive(Drop)]
pub struct Select {
    pub items: Items<Item>,
    pub table: Name,
    /// `FINAL`.
    pub merged: bool,
    /// `WHERE`.
    pub filter: Option<Expr>,
    /// `GROUP BY`; empty where it is not written.
    pub keys: Items<Expr>,
    /// `ORDER BY`, the most telling first; empty where it is not written.
    pub order: Items<Order>,
    /// `LIMIT`, in rows.
    pub limit: Option<Digits>,
}

/// A statement that makes a table.
#[derive(Drop)]
pub struct CreateTable {
    pub name: Name,
    pub columns: ColumnDefs,
    pub engine: EngineWord,
    /// The names of the sorting key in order.
    pub key: Names,
    /// `non_replicated_deduplication_window`.
    pub window: Option<Digits>,
}

/// A statement that makes a view.
#[derive(Drop)]
pub struct CreateView {
    pub name: Name,
    pub target: Name,
    pub select: Select,
}

/// A statement that brings rows.
#[derive(Drop)]
pub struct Insert {
    pub table: Name,
    pub columns: Option<Names>,
    pub settings: Settings,
    pub rows: LiteralRows,
}

/// A look at the parts of a table.
#[derive(Drop)]
pub struct ShowParts {
    pub table: Name,
}

/// A wish that the parts of a table be merged.
#[derive(Drop)]
pub struct Optimize {
    pub table: Name,
}

/// A statement as it is written.
#[derive(Drop)]
pub enum Statement {
    CreateTable(CreateTable),
    CreateView(CreateView),
    Insert(Insert),
    Query(Select),
    ShowParts(ShowParts),
    Optimize(Optimize),
    FlushQueue,
}
