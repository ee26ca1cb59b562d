// States of all aggregate functions.
use chv_types::Value;
use sqlite_items::Items;

/// Values in ascending order, each once.
pub type ValueSet = Items<Value>;

/// A state of an aggregate function.
#[derive(Debug, Drop)]
pub enum AnyAgg {
    /// How many values there were, modulo 2^64.
    Count(u64),
    /// The sum of numbers without sign, modulo 2^64.
    SumU(u64),
    /// The sum of numbers with sign, modulo 2^64.
    SumI(i64),
    /// The least value, where there was one.
    Least(Option<Value>),
    /// The greatest value, where there was one.
    Greatest(Option<Value>),
    /// The different values.
    Uniq(ValueSet),
}
