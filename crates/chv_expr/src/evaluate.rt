// Values of expressions.
ghost use Rattle.std.specs.Prelude.{◌≡◌, IfOk, IfErr, Some, None};
ghost use Rattle.chv_expr.specs.Bindings.{meaning, tree_value, value_in};
ghost use Rattle.chv_expr.specs.Terms.{value_at};
ghost use Rattle.chv_expr.specs.Values.{arithmetic, comparison, holds, is_true, text_length, widened};
ghost use Rattle.chv_types.specs.Order.{number};
ghost use Rattle.chv_types.specs.Values.{seen_value};

use crate::calculate::{calculate, wrap};
use crate::tree::{Arithmetic, Comparison, Tree};
use crate::{Bound, EvalFault, ZeroDivisor};
use chv_types::{Row, Seen, Value, compare_seen};
use std::alloc::Global;
use std::cmp::Ordering;

/// The value of an expression over a row, in new memory.
pub fn eval(alloc: Global, bound: &Bound, row: &Row) -> Result<Value, EvalFault>
    ensures value { IfOk result (λ value. meaning bound.now row.now ≡ Some value) }
    ensures zero { IfErr result (λ fault. fault ≡ EvalFault.ZeroDivisor → meaning bound.now row.now ≡ None) }
{
    let seen = bound.seen(row.as_slice())?;
    Ok(seen.to_value(alloc)?)
}

/// The value of a tree over a row, borrowed from either. It takes no memory.
#[cycle(value)]
#[tactic(auto, using(crate::proofs::TreeLaws::tree_laws))]
pub fn value<'a>(tree: &'a Tree, row: &'a [Value]) -> Result<Seen<'a>, ZeroDivisor>
    ensures { value_in result ≡ tree_value tree.now row.now }
{
    match tree {
        Tree::Column(place) => Ok(value_at(row, *place)),
        Tree::Constant(constant) => Ok(constant.seen()),
        Tree::Not(arg) => Ok(Seen::Truth(!is_true(value(arg.get(), row)?))),
        Tree::And(left, right) => {
            if is_true(value(left.get(), row)?) {
                value(right.get(), row)
            } else {
                Ok(Seen::Truth(false))
            }
        }
        Tree::Or(left, right) => {
            if is_true(value(left.get(), row)?) {
                Ok(Seen::Truth(true))
            } else {
                value(right.get(), row)
            }
        }
        Tree::Compare { test, left, right } => {
            let left = value(left.get(), row)?;
            let right = value(right.get(), row)?;
            Ok(compare(*test, left, right))
        }
        Tree::Calculate {
            operation,
            signed,
            left,
            right,
        } => {
            let left = value(left.get(), row)?;
            let right = value(right.get(), row)?;
            calculate_seen(*operation, *signed, left, right)
        }
        Tree::Widen { signed, arg } => Ok(widen(*signed, value(arg.get(), row)?)),
        Tree::Length(arg) => Ok(length(value(arg.get(), row)?)),
        Tree::If { test, left, right } => {
            if is_true(value(test.get(), row)?) {
                value(left.get(), row)
            } else {
                value(right.get(), row)
            }
        }
    }
}

/// The value of a place in a row, from 0; the number 0 of a place behind it.
pub fn value_at(row: &[Value], place: usize) -> Seen<'_>
    ensures { seen_value result ≡ value_at place row.now }
{
    match row.get(place) {
        Some(value) => value.seen(),
        None => Seen::Whole(0),
    }
}

// Whether a value is the truth TRUE.
fn is_true(seen: Seen<'_>) -> bool
    ensures { result ≡ is_true (seen_value seen.entry) }
{
    match seen {
        Seen::Truth(truth) => truth,
        _ => false,
    }
}

// The number of a value.
fn number(seen: Seen<'_>) -> i128
    ensures { result ≡ number (seen_value seen.entry) }
{
    match seen {
        Seen::Whole(n) => n,
        Seen::Truth(truth) => i128::from(truth),
        _ => 0,
    }
}

// A comparison of two values.
fn compare<'a>(test: Comparison, a: Seen<'_>, b: Seen<'_>) -> Seen<'a>
    ensures { Some (seen_value result) ≡ comparison test (Some (seen_value a.entry)) (Some (seen_value b.entry)) }
{
    Seen::Truth(holds(test, compare_seen(a, b)))
}

// Whether a comparison holds of values that stand so to each other.
fn holds(test: Comparison, order: Ordering) -> bool
    ensures { result ≡ holds test order }
{
    match test {
        Comparison::Equal => order.is_eq(),
        Comparison::Unequal => order.is_ne(),
        Comparison::Less => order.is_lt(),
        Comparison::LessEqual => order.is_le(),
        Comparison::Greater => order.is_gt(),
        Comparison::GreaterEqual => order.is_ge(),
    }
}

// An operation on two numbers.
fn calculate_seen<'a>(
    operation: Arithmetic,
    signed: bool,
    a: Seen<'_>,
    b: Seen<'_>,
) -> Result<Seen<'a>, ZeroDivisor>
    ensures { value_in result ≡ arithmetic operation signed (Some (seen_value a.entry)) (Some (seen_value b.entry)) }
{
    Ok(Seen::Whole(calculate(operation, signed, number(a), number(b))?))
}

// A number of 64 bits, with a sign or without.
fn widen<'a>(signed: bool, seen: Seen<'_>) -> Seen<'a>
    ensures { Some (seen_value result) ≡ widened signed (Some (seen_value seen.entry)) }
{
    Seen::Whole(wrap(signed, number(seen)))
}

// The number of bytes of a text.
fn length<'a>(seen: Seen<'_>) -> Seen<'a>
    ensures { Some (seen_value result) ≡ text_length (Some (seen_value seen.entry)) }
{
    match seen {
        Seen::Text(bytes) | Seen::State(bytes) => Seen::Whole(bytes.len() as i128),
        _ => Seen::Whole(0),
    }
}
