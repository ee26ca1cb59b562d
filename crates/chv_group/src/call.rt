// Calls of aggregate functions, and what they take.
use chv_types::{AggForm, AggName, Row, Scalar};
use sqlite_items::Items;

/// A call of an aggregate function.
#[derive(Clone, Copy, Debug, PartialEq, Eq)]
pub struct AggCall {
    pub agg: AggName,
    /// The kind of its values, or of those of the states that it takes.
    pub arg: Scalar,
    pub form: AggForm,
}

/// Calls, in order.
pub type AggCalls = Items<AggCall>;

/// A key, and one argument for each call.
#[derive(Debug, Drop)]
pub struct Keyed {
    pub key: Row,
    pub args: Row,
}

/// Keys with arguments, in order.
pub type KeyedRows = Items<Keyed>;
