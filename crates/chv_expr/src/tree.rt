// Expressions whose names are places.
use chv_types::Value;
use sqlite_items::Boxed;

/// A comparison.
#[derive(Clone, Copy, Debug, PartialEq, Eq)]
pub enum Comparison {
    Equal,
    Unequal,
    Less,
    LessEqual,
    Greater,
    GreaterEqual,
}

/// An operation on numbers.
#[derive(Clone, Copy, Debug, PartialEq, Eq)]
pub enum Arithmetic {
    Plus,
    Minus,
    Times,
    /// Towards zero.
    Quotient,
    /// What the quotient leaves, which has the sign of the number that is divided.
    Remainder,
}

/// An expression that is bound: its names are places, and its operations are known.
#[cycle(tree)]
#[derive(Drop)]
pub enum Tree {
    /// The value of a column, by its place from 0.
    Column(usize),
    Constant(Value),
    Not(Boxed<Tree>),
    And(Boxed<Tree>, Boxed<Tree>),
    Or(Boxed<Tree>, Boxed<Tree>),
    Compare {
        test: Comparison,
        left: Boxed<Tree>,
        right: Boxed<Tree>,
    },
    /// Its result has 64 bits, with a sign or without.
    Calculate {
        operation: Arithmetic,
        signed: bool,
        left: Boxed<Tree>,
        right: Boxed<Tree>,
    },
    /// A number of 64 bits, with a sign or without.
    Widen {
        signed: bool,
        arg: Boxed<Tree>,
    },
    /// The number of bytes of a text.
    Length(Boxed<Tree>),
    If {
        test: Boxed<Tree>,
        left: Boxed<Tree>,
        right: Boxed<Tree>,
    },
}
