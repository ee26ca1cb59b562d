// The kinds of operations.
ghost use Rattle.std.specs.Prelude.{◌≡◌, IfSome};
ghost use Rattle.chv_expr.specs.Kinds.{binary_kind, class_of, class_of_scalar, joined, numbers, unary_kind, wide};
ghost use Rattle.chv_expr.specs.Terms.{is_signed};

use chv_ast::{BinaryOp, UnaryOp};
use chv_types::{Kind, Scalar};

/// What operations see of a kind of plain values.
#[derive(Clone, Copy, Debug, PartialEq, Eq)]
pub enum Class {
    /// Integers of any width.
    Number { signed: bool },
    /// False and true.
    Truth,
    /// Texts.
    Text,
}

/// The class of a kind; states have none.
pub fn class_of(kind: Kind) -> Option<Class>
    ensures { result ≡ class_of kind }
{
    match kind {
        Kind::Plain(plain) => Some(class_of_scalar(plain)),
        Kind::State(..) => None,
    }
}

// The class of a kind of plain values.
fn class_of_scalar(plain: Scalar) -> Class
    ensures { result ≡ class_of_scalar plain }
{
    match plain {
        Scalar::UInt8 | Scalar::UInt16 | Scalar::UInt32 | Scalar::UInt64 => {
            Class::Number { signed: false }
        }
        Scalar::Int8 | Scalar::Int16 | Scalar::Int32 | Scalar::Int64 => {
            Class::Number { signed: true }
        }
        Scalar::Bool => Class::Truth,
        Scalar::Text => Class::Text,
    }
}

/// The kind of what is calculated: of 64 bits.
pub fn wide(signed: bool) -> Scalar
    ensures { result ≡ wide signed }
{
    if signed {
        Scalar::Int64
    } else {
        Scalar::UInt64
    }
}

/// The kind of either of two values: of two integers UInt64 where both are unsigned, else Int64; of two truths or two texts
/// theirs.
pub fn joined(a: Class, b: Class) -> Option<Scalar>
    ensures { result ≡ joined a b }
{
    match a {
        Class::Number { signed: a } => match b {
            Class::Number { signed: b } => Some(wide(a || b)),
            _ => None,
        },
        Class::Truth => match b {
            Class::Truth => Some(Scalar::Bool),
            _ => None,
        },
        Class::Text => match b {
            Class::Text => Some(Scalar::Text),
            _ => None,
        },
    }
}

/// Whether what two integers give has a sign; None where one of them is no integer.
pub fn numbers(a: Class, b: Class) -> Option<bool>
    ensures { result ≡ numbers a b }
{
    match a {
        Class::Number { signed: a } => match b {
            Class::Number { signed: b } => Some(a || b),
            _ => None,
        },
        _ => None,
    }
}

/// The kind of an operation with two operands.
pub fn binary_kind(op: BinaryOp, a: Class, b: Class) -> Option<Scalar>
    ensures { result ≡ binary_kind op a b }
{
    match op {
        BinaryOp::Or | BinaryOp::And => match a {
            Class::Truth => match b {
                Class::Truth => Some(Scalar::Bool),
                _ => None,
            },
            _ => None,
        },
        BinaryOp::Plus | BinaryOp::Times | BinaryOp::Modulo => Some(wide(numbers(a, b)?)),
        BinaryOp::Minus => {
            numbers(a, b)?;
            Some(Scalar::Int64)
        }
        _ => {
            joined(a, b)?;
            Some(Scalar::Bool)
        }
    }
}

/// The kind of an operation with one operand.
pub fn unary_kind(op: UnaryOp, a: Class) -> Option<Scalar>
    ensures { result ≡ unary_kind op a }
{
    match op {
        UnaryOp::Minus => match a {
            Class::Number { .. } => Some(Scalar::Int64),
            _ => None,
        },
        UnaryOp::Not => match a {
            Class::Truth => Some(Scalar::Bool),
            _ => None,
        },
    }
}

/// Whether what is calculated has a sign.
pub fn is_signed(plain: Scalar) -> bool
    ensures { result ≡ is_signed plain }
{
    plain != Scalar::UInt64
}

/// Whether what is calculated has a sign, where there is a kind of it.
pub fn has_sign(plain: Option<Scalar>) -> bool
    ensures { IfSome plain (λ plain. result ≡ is_signed plain) }
{
    match plain {
        Some(plain) => is_signed(plain),
        None => false,
    }
}
