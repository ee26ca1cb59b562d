// Values that are looked at where they stand.
ghost use Rattle.std.specs.Prelude.{◌≡◌, IfOk};
ghost use Rattle.chv_types.specs.Values.{seen_value};

use crate::{Bytes, Value};
use std::alloc::{AllocError, Global};

/// A value without a copy of its bytes.
#[derive(Clone, Copy, Debug)]
pub enum Seen<'a> {
    /// A whole number, of any integer kind.
    Whole(i128),
    /// False or true.
    Truth(bool),
    /// The bytes of a text.
    Text(&'a [u8]),
    /// The bytes that spell a state.
    State(&'a [u8]),
}

impl Value {
    /// The value, borrowed.
    pub fn seen(&self) -> Seen<'_>
        ensures { seen_value result ≡ self.now }
    {
        match self {
            Value::Whole(n) => Seen::Whole(*n),
            Value::Truth(truth) => Seen::Truth(*truth),
            Value::Text(bytes) => Seen::Text(bytes.as_slice()),
            Value::State(bytes) => Seen::State(bytes.as_slice()),
        }
    }
}

impl<'a> Seen<'a> {
    /// The value that is seen, in new memory.
    pub fn to_value(self, alloc: Global) -> Result<Value, AllocError>
        ensures { IfOk result (λ value. value ≡ seen_value self.entry) }
    {
        match self {
            Seen::Whole(n) => Ok(Value::Whole(n)),
            Seen::Truth(truth) => Ok(Value::Truth(truth)),
            Seen::Text(bytes) => Ok(Value::Text(Bytes::from_slice(alloc, bytes)?)),
            Seen::State(bytes) => Ok(Value::State(Bytes::from_slice(alloc, bytes)?)),
        }
    }
}
