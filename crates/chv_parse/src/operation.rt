// Operations of expressions: how they are written, and how tightly they bind.
ghost use Rattle.std.specs.Prelude.{◌≡◌};
ghost use Rattle.chv_ast.specs.Grammar.{level_of, unary_level, left_level};
ghost use Rattle.chv_parse.specs.Reading.{Reads, marked};
ghost use Rattle.chv_parse.specs.ExprReading.{word_next, comparison_next, arithmetic_next, operation_next, is_unary};

use crate::ParseFault;
use crate::cursor::Cursor;
use chv_ast::{BinaryOp, UnaryOp};

// The word between two operands that comes next.
#[tactic(auto, unfolding(crate::specs::ExprReading::word_next))]
fn word_next(cursor: &Cursor) -> Option<BinaryOp>
    ensures { result ≡ word_next cursor.now }
{
    if cursor.next_is_keyword(b"OR") {
        Some(BinaryOp::Or)
    } else if cursor.next_is_keyword(b"AND") {
        Some(BinaryOp::And)
    } else {
        None
    }
}

// The comparison that comes next.
#[tactic(auto, unfolding(crate::specs::ExprReading::comparison_next))]
fn comparison_next(cursor: &Cursor) -> Option<BinaryOp>
    ensures { result ≡ comparison_next cursor.now }
{
    if cursor.next_is_sign(b"=") {
        Some(BinaryOp::Equal)
    } else if cursor.next_is_sign(b"==") {
        Some(BinaryOp::Equal)
    } else if cursor.next_is_sign(b"!=") {
        Some(BinaryOp::Unequal)
    } else if cursor.next_is_sign(b"<>") {
        Some(BinaryOp::Unequal)
    } else if cursor.next_is_sign(b"<") {
        Some(BinaryOp::Less)
    } else if cursor.next_is_sign(b"<=") {
        Some(BinaryOp::LessEqual)
    } else if cursor.next_is_sign(b">") {
        Some(BinaryOp::Greater)
    } else if cursor.next_is_sign(b">=") {
        Some(BinaryOp::GreaterEqual)
    } else {
        None
    }
}

// The operation on two numbers that comes next.
#[tactic(auto, unfolding(crate::specs::ExprReading::arithmetic_next))]
fn arithmetic_next(cursor: &Cursor) -> Option<BinaryOp>
    ensures { result ≡ arithmetic_next cursor.now }
{
    if cursor.next_is_sign(b"+") {
        Some(BinaryOp::Plus)
    } else if cursor.next_is_sign(b"-") {
        Some(BinaryOp::Minus)
    } else if cursor.next_is_sign(b"*") {
        Some(BinaryOp::Times)
    } else if cursor.next_is_sign(b"%") {
        Some(BinaryOp::Modulo)
    } else {
        None
    }
}

/// The operation with two operands that comes next.
#[tactic(auto, unfolding(crate::specs::ExprReading::operation_next))]
pub fn operation_next(cursor: &Cursor) -> Option<BinaryOp>
    ensures { result ≡ operation_next cursor.now }
{
    match word_next(cursor) {
        Some(op) => Some(op),
        None => match comparison_next(cursor) {
            Some(op) => Some(op),
            None => arithmetic_next(cursor),
        },
    }
}

/// Reads the sign or the word of an operation with one operand.
pub fn unary_mark(cursor: &mut Cursor, op: UnaryOp) -> Result<(), ParseFault>
    ensures { Reads (marked (is_unary op)) cursor.old result cursor.new }
{
    match op {
        UnaryOp::Minus => cursor.sign(b"-"),
        UnaryOp::Not => cursor.keyword(b"NOT"),
    }
}

/// How tightly an operation with two operands binds.
pub fn level_of(op: BinaryOp) -> usize
    ensures { result ≡ level_of op }
{
    match op {
        BinaryOp::Or => 0,
        BinaryOp::And => 1,
        BinaryOp::Equal => 3,
        BinaryOp::Unequal => 3,
        BinaryOp::Less => 3,
        BinaryOp::LessEqual => 3,
        BinaryOp::Greater => 3,
        BinaryOp::GreaterEqual => 3,
        BinaryOp::Plus => 4,
        BinaryOp::Minus => 4,
        BinaryOp::Times => 5,
        BinaryOp::Modulo => 5,
    }
}

/// How tightly its left operand binds at least: chains go to the left, but a comparison is no operand of one.
pub fn left_level(op: BinaryOp) -> usize
    ensures { result ≡ left_level op }
{
    match op {
        BinaryOp::Equal => 4,
        BinaryOp::Unequal => 4,
        BinaryOp::Less => 4,
        BinaryOp::LessEqual => 4,
        BinaryOp::Greater => 4,
        BinaryOp::GreaterEqual => 4,
        BinaryOp::Or => level_of(op),
        BinaryOp::And => level_of(op),
        BinaryOp::Plus => level_of(op),
        BinaryOp::Minus => level_of(op),
        BinaryOp::Times => level_of(op),
        BinaryOp::Modulo => level_of(op),
    }
}

/// How tightly an operation with one operand binds.
pub fn unary_level(op: UnaryOp) -> usize
    ensures { result ≡ unary_level op }
{
    match op {
        UnaryOp::Minus => 6,
        UnaryOp::Not => 2,
    }
}
