// Operations that are bound.
ghost use Rattle.std.specs.Prelude.{◌≡◌, List, IfOk, IfErr};
ghost use Rattle.std.specs.Option.{option_and_then};
ghost use Rattle.chv_ast.specs.declared.refusal.Refusal.TheVariants.{TypeMismatch};
ghost use Rattle.chv_expr.specs.Bindings.{Binds, Means, tree_value};
ghost use Rattle.chv_expr.specs.Kinds.{binary_kind, class_of, unary_kind};
ghost use Rattle.chv_expr.specs.Terms.{Term, binary_term, binary_value, unary_term, unary_value};
ghost use Rattle.chv_expr.specs.Values.{arithmetic, comparison};
ghost use Rattle.chv_types.specs.Steps.{or_refuse};
ghost use Rattle.chv_types.specs.declared.table.Column.{Column as SomeColumn};
ghost use Rattle.chv_types.specs.declared.value.Value.{Value as SomeValue};

use crate::kind::{binary_kind, class_of, has_sign, unary_kind};
use crate::tree::{Arithmetic, Comparison, Tree};
use crate::{Bound, Untyped};
use chv_ast::{BinaryOp, UnaryOp};
use chv_types::{Kind, Scalar, Value};
use sqlite_items::Boxed;
use std::alloc::Global;

/// Binds an operation with one operand.
pub fn bind_unary(alloc: Global, op: UnaryOp, a: Bound) -> Result<Bound, Untyped>
    ensures { (columns : List SomeColumn) (x : Term) → Means columns a x
        → Binds columns (or_refuse TypeMismatch (unary_term op x)) result }
{
    let plain = kind_of_unary(op, a.kind());
    let tree = unary_tree(alloc, op, a.into_tree())?;
    Bound::of_kind(alloc, plain, tree)
}

// The kind of an operation on a value of a kind.
fn kind_of_unary(op: UnaryOp, a: Kind) -> Option<Scalar>
    ensures { result ≡ option_and_then (unary_kind op) (class_of a) }
{
    let a = class_of(a)?;
    unary_kind(op, a)
}

// The tree of an operation with one operand.
fn unary_tree(alloc: Global, op: UnaryOp, arg: Boxed<Tree>) -> Result<Tree, Untyped>
    ensures tree { IfOk result (λ tree. (row : List SomeValue)
        → tree_value tree row ≡ unary_value op (tree_value arg row)) }
    ensures err { IfErr result (λ fault. fault ≡ Untyped.NoMemory) }
{
    match op {
        UnaryOp::Minus => {
            let left = Boxed::new(alloc, Tree::Constant(Value::Whole(0)))?;
            Ok(Tree::Calculate {
                operation: Arithmetic::Minus,
                signed: true,
                left,
                right: arg,
            })
        }
        UnaryOp::Not => Ok(Tree::Not(arg)),
    }
}

/// Binds an operation with two operands.
pub fn bind_binary(alloc: Global, op: BinaryOp, a: Bound, b: Bound) -> Result<Bound, Untyped>
    ensures { (columns : List SomeColumn) (x y : Term) → Means columns a x → Means columns b y
        → Binds columns (or_refuse TypeMismatch (binary_term op x y)) result }
{
    let plain = kind_of_binary(op, a.kind(), b.kind());
    let tree = binary_tree(op, has_sign(plain), a.into_tree(), b.into_tree());
    Bound::of_kind(alloc, plain, tree)
}

// The kind of an operation on values of two kinds.
fn kind_of_binary(op: BinaryOp, a: Kind, b: Kind) -> Option<Scalar>
    ensures { result ≡ option_and_then (λ x. option_and_then (λ y. binary_kind op x y) (class_of b)) (class_of a) }
{
    let a = class_of(a)?;
    let b = class_of(b)?;
    binary_kind(op, a, b)
}

// The tree of an operation with two operands, whose result has a sign or not.
fn binary_tree(op: BinaryOp, signed: bool, left: Boxed<Tree>, right: Boxed<Tree>) -> Tree
    ensures { (row : List SomeValue)
        → tree_value result row ≡ binary_value op signed (tree_value left row) (tree_value right row) }
{
    match op {
        BinaryOp::Or => Tree::Or(left, right),
        BinaryOp::And => Tree::And(left, right),
        BinaryOp::Equal => compare(Comparison::Equal, left, right),
        BinaryOp::Unequal => compare(Comparison::Unequal, left, right),
        BinaryOp::Less => compare(Comparison::Less, left, right),
        BinaryOp::LessEqual => compare(Comparison::LessEqual, left, right),
        BinaryOp::Greater => compare(Comparison::Greater, left, right),
        BinaryOp::GreaterEqual => compare(Comparison::GreaterEqual, left, right),
        BinaryOp::Plus => calculate(Arithmetic::Plus, signed, left, right),
        BinaryOp::Minus => calculate(Arithmetic::Minus, signed, left, right),
        BinaryOp::Times => calculate(Arithmetic::Times, signed, left, right),
        BinaryOp::Modulo => calculate(Arithmetic::Remainder, signed, left, right),
    }
}

// The tree of a comparison.
fn compare(test: Comparison, left: Boxed<Tree>, right: Boxed<Tree>) -> Tree
    ensures { (row : List SomeValue)
        → tree_value result row ≡ comparison test (tree_value left row) (tree_value right row) }
{
    Tree::Compare { test, left, right }
}

/// The tree of an operation on numbers.
pub fn calculate(operation: Arithmetic, signed: bool, left: Boxed<Tree>, right: Boxed<Tree>) -> Tree
    ensures { (row : List SomeValue)
        → tree_value result row ≡ arithmetic operation signed (tree_value left row) (tree_value right row) }
{
    Tree::Calculate {
        operation,
        signed,
        left,
        right,
    }
}
