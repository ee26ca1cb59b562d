// Values.
ghost use Rattle.std.specs.Prelude.{◌≡◌, IfOk};
ghost use Rattle.chv_types.specs.Values.{default_of, empty_state};

use crate::{AggName, Bytes, Kind, Scalar};
use std::alloc::{AllocError, Global};

/// A value of a row.
#[derive(Debug, Drop)]
pub enum Value {
    /// A whole number, of any integer kind.
    Whole(i128),
    /// False or true.
    Truth(bool),
    /// The bytes of a text.
    Text(Bytes),
    /// The bytes that spell a state.
    State(Bytes),
}

/// What a column of the kind has where nothing is said: 0, false, the empty text, or the state of no rows.
pub fn default_value(alloc: Global, kind: Kind) -> Result<Value, AllocError>
    ensures { IfOk result (λ value. value ≡ default_of kind) }
{
    match kind {
        Kind::Plain(Scalar::Bool) => Ok(Value::Truth(false)),
        Kind::Plain(Scalar::Text) => Ok(Value::Text(Bytes::new(alloc))),
        Kind::Plain(_) => Ok(Value::Whole(0)),
        Kind::State(agg, _) => empty_state(alloc, agg),
    }
}

// The state of no rows: 0 in eight bytes, or for the least and the greatest the byte 0 in front of no value.
fn empty_state(alloc: Global, agg: AggName) -> Result<Value, AllocError>
    ensures { IfOk result (λ value. value ≡ empty_state agg) }
{
    match agg {
        AggName::Min | AggName::Max => Ok(Value::State(Bytes::from_slice(alloc, &[0])?)),
        _ => Ok(Value::State(Bytes::from_slice(alloc, &[0; 8])?)),
    }
}
