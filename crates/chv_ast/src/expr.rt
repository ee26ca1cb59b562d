// Expressions.
use crate::{Digits, Name, Quoted};
use sqlite_items::Boxed;

/// A literal as it is written.
#[derive(Debug, Drop)]
pub enum Literal {
    /// A number; a minus stands in the rows of an insert alone.
    Whole { minus: bool, digits: Digits },
    /// A text: the bytes that it stands for.
    Quoted(Quoted),
    /// `TRUE` or `FALSE`.
    Truth(bool),
}

/// An operation with one operand.
#[derive(Clone, Copy, Debug, PartialEq, Eq)]
pub enum UnaryOp {
    Minus,
    Not,
}

/// An operation with two operands.
#[derive(Clone, Copy, Debug, PartialEq, Eq)]
pub enum BinaryOp {
    Or,
    And,
    Equal,
    Unequal,
    Less,
    LessEqual,
    Greater,
    GreaterEqual,
    Plus,
    Minus,
    Times,
    Modulo,
}

/// An expression. Parentheses leave no trace in it.
#[cycle(tree)]
#[derive(Drop)]
pub enum Expr {
    Column(Name),
    Literal(Literal),
    Unary {
        op: UnaryOp,
        arg: Boxed<Expr>,
    },
    Binary {
        op: BinaryOp,
        left: Boxed<Expr>,
        right: Boxed<Expr>,
    },
    /// `count(*)` is `count` without arguments.
    Call {
        function: Name,
        args: Args,
    },
}

/// The arguments of a call, in order.
#[cycle(tree)]
#[derive(Drop)]
pub enum Args {
    End,
    More(Boxed<Expr>, Boxed<Args>),
}
