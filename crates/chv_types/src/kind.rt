// Kinds of values.
ghost use Rattle.std.specs.Prelude.{◌≡◌, ◌≤ℤ◌, ◌⊎◌, ◌≢◌, ◌↔◌, IsTrue, IsNone, IfSome};
ghost use Rattle.chv_types.specs.Kinds.{scalar_name, range_of, Widens};

use crate::AggName;

/// A kind of plain values.
#[derive(Clone, Copy, Debug, PartialEq, Eq)]
pub enum Scalar {
    /// Whole numbers of 8 bits without sign.
    UInt8,
    /// Whole numbers of 16 bits without sign.
    UInt16,
    /// Whole numbers of 32 bits without sign.
    UInt32,
    /// Whole numbers of 64 bits without sign.
    UInt64,
    /// Whole numbers of 8 bits with sign.
    Int8,
    /// Whole numbers of 16 bits with sign.
    Int16,
    /// Whole numbers of 32 bits with sign.
    Int32,
    /// Whole numbers of 64 bits with sign.
    Int64,
    /// False and true.
    Bool,
    /// Texts of bytes, which statements call String.
    Text,
}

/// A kind of values.
#[derive(Clone, Copy, Debug, PartialEq, Eq)]
pub enum Kind {
    /// Plain values.
    Plain(Scalar),
    /// States of an aggregate function over values of a kind.
    State(AggName, Scalar),
}

/// The kind with this name, matched letter by letter.
pub fn scalar_named(name: &[u8]) -> Option<Scalar>
    ensures found { IfSome result (λ kind. name.now ≡ scalar_name kind) }
    ensures none { IsNone result → (kind : Scalar) → name.now ≢ scalar_name kind }
{
    if name == b"UInt8".as_slice() {
        return Some(Scalar::UInt8);
    }
    if name == b"UInt16".as_slice() {
        return Some(Scalar::UInt16);
    }
    if name == b"UInt32".as_slice() {
        return Some(Scalar::UInt32);
    }
    if name == b"UInt64".as_slice() {
        return Some(Scalar::UInt64);
    }
    if name == b"Int8".as_slice() {
        return Some(Scalar::Int8);
    }
    if name == b"Int16".as_slice() {
        return Some(Scalar::Int16);
    }
    if name == b"Int32".as_slice() {
        return Some(Scalar::Int32);
    }
    if name == b"Int64".as_slice() {
        return Some(Scalar::Int64);
    }
    if name == b"Bool".as_slice() {
        return Some(Scalar::Bool);
    }
    if name == b"String".as_slice() {
        return Some(Scalar::Text);
    }
    None
}

impl Scalar {
    /// The least and the greatest number of an integer kind.
    pub fn range(self) -> Option<(i128, i128)>
        ensures { result ≡ range_of self }
    {
        match self {
            Scalar::UInt8 => Some((0, 255)),
            Scalar::UInt16 => Some((0, 65535)),
            Scalar::UInt32 => Some((0, 4294967295)),
            Scalar::UInt64 => Some((0, 18446744073709551615)),
            Scalar::Int8 => Some((-128, 127)),
            Scalar::Int16 => Some((-32768, 32767)),
            Scalar::Int32 => Some((-2147483648, 2147483647)),
            Scalar::Int64 => Some((-9223372036854775808, 9223372036854775807)),
            Scalar::Bool => None,
            Scalar::Text => None,
        }
    }
}

/// Whether each value of `from` may stand in a column of `to`.
pub fn widens(from: Kind, to: Kind) -> bool
    ensures { IsTrue result ↔ ((from ≡ to) ⊎ Widens from to) }
{
    if from == to {
        return true;
    }
    match from {
        Kind::Plain(from) => match to {
            Kind::Plain(to) => widens_number(from, to),
            Kind::State(..) => false,
        },
        Kind::State(..) => false,
    }
}

// Both are integer kinds, and the range of `from` lies within that of `to`.
fn widens_number(from: Scalar, to: Scalar) -> bool
    ensures { IsTrue result ↔ Widens (Kind.Plain from) (Kind.Plain to) }
{
    match from.range() {
        Some((low, high)) => match to.range() {
            Some((least, greatest)) => lies_within(low, high, least, greatest),
            None => false,
        },
        None => false,
    }
}

// Whether one range lies within another.
fn lies_within(low: i128, high: i128, least: i128, greatest: i128) -> bool
    ensures { IsTrue result ↔ ((least ≤ℤ low) × (high ≤ℤ greatest)) }
{
    least <= low && high <= greatest
}
