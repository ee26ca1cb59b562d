// Why an expression has no kind, or no value.
ghost use Rattle.std.specs.Prelude.{◌≡◌};
ghost use Rattle.chv_expr.specs.declared.fault.Untyped.TheVariants as untyped;
ghost use Rattle.chv_expr.specs.declared.fault.EvalFault.TheVariants as fault;

use std::alloc::AllocError;

/// Why an expression has no kind.
#[derive(Clone, Copy, Debug, PartialEq, Eq)]
pub enum Untyped {
    /// A name is that of no column.
    UnknownColumn,
    /// A name is that of no function.
    UnknownFunction,
    /// An operation or a function does not take operands of these kinds, or so many of them; or an aggregate function stands
    /// within an expression.
    TypeMismatch,
    /// A number is above 18446744073709551615, or a text is longer than 1,048,576 bytes.
    BadLiteral,
    /// There was no memory.
    NoMemory,
}

impl From<AllocError> for Untyped {
    ghost from_gives = { λ _ e. e ≡ untyped.NoMemory };

    fn from(_: AllocError) -> Untyped {
        Untyped::NoMemory
    }
}

/// A divisor was zero.
#[derive(Clone, Copy, Debug, PartialEq, Eq)]
pub struct ZeroDivisor;

/// Why an expression has no value.
#[derive(Clone, Copy, Debug, PartialEq, Eq)]
pub enum EvalFault {
    /// A divisor was zero.
    ZeroDivisor,
    /// There was no memory for the value.
    NoMemory,
}

impl From<AllocError> for EvalFault {
    ghost from_gives = { λ _ e. e ≡ fault.NoMemory };

    fn from(_: AllocError) -> EvalFault {
        EvalFault::NoMemory
    }
}

impl From<ZeroDivisor> for EvalFault {
    ghost from_gives = { λ _ e. e ≡ fault.ZeroDivisor };

    fn from(_: ZeroDivisor) -> EvalFault {
        EvalFault::ZeroDivisor
    }
}
