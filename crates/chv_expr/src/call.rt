// Calls of functions.
ghost use Rattle.std.specs.Prelude.{◌≡◌, ◌↔◌, List, [], ◌∷◌, None, Some, IfSome, IfOk, IfErr, IsTrue};
ghost use Rattle.std.specs.Option.{option_and_then, option_map};
ghost use Rattle.chv_ast.specs.declared.refusal.Refusal.TheVariants.{TypeMismatch};
ghost use Rattle.chv_expr.specs.Bindings.{AreMeant, Binds, Means, Refuses, refusal_of, tree_value};
ghost use Rattle.chv_expr.specs.Kinds.{class_of, joined, numbers, wide};
ghost use Rattle.chv_expr.specs.Terms.{Term, applied, call_term, chosen_of, chosen_value, no_function};
ghost use Rattle.chv_expr.specs.Terms.{quotient_term, widened_of};
ghost use Rattle.chv_types.specs.Steps.{or_refuse};
ghost use Rattle.chv_types.specs.declared.table.Column.{Column as SomeColumn};
ghost use Rattle.chv_types.specs.declared.value.Value.{Value as SomeValue};

use crate::arguments::Arguments;
use crate::function::{Function, function_named};
use crate::kind::{Class, class_of, has_sign, is_signed, joined, numbers, wide};
use crate::operation::{bind_binary, calculate};
use crate::tree::{Arithmetic, Tree};
use crate::{Bound, Untyped};
use chv_ast::BinaryOp;
use chv_types::{Kind, Scalar, agg_named};
use sqlite_items::Boxed;
use std::alloc::Global;

/// Binds a call of the function with a name.
pub fn bind_call(alloc: Global, name: &[u8], arguments: Arguments) -> Result<Bound, Untyped>
    ensures { (columns : List SomeColumn) (terms : List Term) → AreMeant columns arguments terms
        → Binds columns (call_term name.now terms) result }
{
    match function_named(name) {
        Some(function) => apply(alloc, function, arguments),
        None => Err(no_function(name)),
    }
}

// Why a name is that of no function of an expression.
fn no_function(name: &[u8]) -> Untyped
    ensures { refusal_of result ≡ Some (no_function name.now) }
{
    if agg_named(name).is_some() {
        Untyped::TypeMismatch
    } else {
        Untyped::UnknownFunction
    }
}

// Binds a function over its arguments.
fn apply(alloc: Global, function: Function, arguments: Arguments) -> Result<Bound, Untyped>
    ensures { (columns : List SomeColumn) (terms : List Term) → AreMeant columns arguments terms
        → Binds columns (or_refuse TypeMismatch (applied function terms)) result }
{
    match arguments {
        Arguments::One(a) => apply_one(alloc, function, a),
        Arguments::Two(a, b) => apply_two(alloc, function, a, b),
        Arguments::Three(test, a, b) => apply_three(alloc, function, test, a, b),
        Arguments::None => Err(Untyped::TypeMismatch),
        Arguments::More => Err(Untyped::TypeMismatch),
    }
}

// Binds a function over one argument.
fn apply_one(alloc: Global, function: Function, a: Bound) -> Result<Bound, Untyped>
    ensures { (columns : List SomeColumn) (x : Term) → Means columns a x
        → Binds columns (or_refuse TypeMismatch (applied function (x ∷ []))) result }
{
    match function {
        Function::Length => bind_length(alloc, a),
        Function::ToUInt64 => bind_widen(alloc, false, a),
        Function::ToInt64 => bind_widen(alloc, true, a),
        _ => Err(Untyped::TypeMismatch),
    }
}

// Binds a function over two arguments.
fn apply_two(alloc: Global, function: Function, a: Bound, b: Bound) -> Result<Bound, Untyped>
    ensures { (columns : List SomeColumn) (x y : Term) → Means columns a x → Means columns b y
        → Binds columns (or_refuse TypeMismatch (applied function (x ∷ y ∷ []))) result }
{
    match function {
        Function::Modulo => bind_binary(alloc, BinaryOp::Modulo, a, b),
        Function::IntDiv => bind_quotient(alloc, a, b),
        _ => Err(Untyped::TypeMismatch),
    }
}

// Binds a function over three arguments.
fn apply_three(
    alloc: Global,
    function: Function,
    test: Bound,
    a: Bound,
    b: Bound,
) -> Result<Bound, Untyped>
    ensures { (columns : List SomeColumn) (c x y : Term) → Means columns test c → Means columns a x → Means columns b y
        → Binds columns (or_refuse TypeMismatch (applied function (c ∷ x ∷ y ∷ []))) result }
{
    match function {
        Function::If => bind_if(alloc, test, a, b),
        _ => Err(Untyped::TypeMismatch),
    }
}

// Binds the length of a text.
fn bind_length(alloc: Global, a: Bound) -> Result<Bound, Untyped>
    ensures { (columns : List SomeColumn) (x : Term) → Means columns a x
        → Binds columns (or_refuse TypeMismatch (applied Function.Length (x ∷ []))) result }
{
    match class_of(a.kind()) {
        Some(Class::Text) => {
            let tree = Tree::Length(a.into_tree());
            Ok(Bound::new(alloc, Kind::Plain(Scalar::UInt64), tree)?)
        }
        _ => Err(Untyped::TypeMismatch),
    }
}

// Binds a number of 64 bits, with a sign or without.
fn bind_widen(alloc: Global, signed: bool, a: Bound) -> Result<Bound, Untyped>
    ensures { (columns : List SomeColumn) (x : Term) → Means columns a x
        → Binds columns (or_refuse TypeMismatch (option_and_then (widened_of signed x) (class_of x.kind))) result }
{
    match class_of(a.kind()) {
        Some(Class::Number { .. }) => {
            let arg = a.into_tree();
            Ok(Bound::new(
                alloc,
                Kind::Plain(wide(signed)),
                Tree::Widen { signed, arg },
            )?)
        }
        _ => Err(Untyped::TypeMismatch),
    }
}

// Binds a number by another one.
fn bind_quotient(alloc: Global, a: Bound, b: Bound) -> Result<Bound, Untyped>
    ensures { (columns : List SomeColumn) (x y : Term) → Means columns a x → Means columns b y
        → Binds columns (or_refuse TypeMismatch (quotient_term x y)) result }
{
    let plain = kind_of_quotient(a.kind(), b.kind());
    let tree = calculate(
        Arithmetic::Quotient,
        has_sign(plain),
        a.into_tree(),
        b.into_tree(),
    );
    Bound::of_kind(alloc, plain, tree)
}

// The kind of a number of one kind by one of another; None where they are no numbers.
fn kind_of_quotient(a: Kind, b: Kind) -> Option<Scalar>
    ensures { result ≡ option_map wide (option_and_then (λ x. option_and_then (λ y. numbers x y) (class_of b)) (class_of a)) }
{
    let a = class_of(a)?;
    let b = class_of(b)?;
    Some(wide(numbers(a, b)?))
}

// The kind of either of two values of these kinds.
fn joined_of(a: Kind, b: Kind) -> Option<Scalar>
    ensures { result ≡ option_and_then (λ x. option_and_then (λ y. joined x y) (class_of b)) (class_of a) }
{
    let a = class_of(a)?;
    let b = class_of(b)?;
    joined(a, b)
}

// Binds one of two, by a truth.
fn bind_if(alloc: Global, test: Bound, a: Bound, b: Bound) -> Result<Bound, Untyped>
    ensures { (columns : List SomeColumn) (c x y : Term) → Means columns test c → Means columns a x → Means columns b y
        → Binds columns (or_refuse TypeMismatch (option_and_then (chosen_of c x y) (class_of c.kind))) result }
{
    let plain = kind_of_if(test.kind(), a.kind(), b.kind());
    let tree = Tree::If {
        test: test.into_tree(),
        left: a.into_tree(),
        right: b.into_tree(),
    };
    bind_chosen(alloc, plain, tree)
}

// The kind of one of two by a test, of these kinds; None where the test is no truth.
fn kind_of_if(test: Kind, a: Kind, b: Kind) -> Option<Scalar>
    ensures some { IfSome result (λ plain. (class_of test ≡ Some Class.Truth)
        × (option_and_then (λ x. option_and_then (λ y. joined x y) (class_of b)) (class_of a) ≡ Some plain)) }
    ensures none { result ≡ None → class_of test ≡ Some Class.Truth
        → option_and_then (λ x. option_and_then (λ y. joined x y) (class_of b)) (class_of a) ≡ None }
{
    if is_truth(test) {
        joined_of(a, b)
    } else {
        None
    }
}

// Whether a kind is that of truths.
fn is_truth(kind: Kind) -> bool
    ensures { IsTrue result ↔ (class_of kind ≡ Some Class.Truth) }
{
    match class_of(kind) {
        Some(Class::Truth) => true,
        _ => false,
    }
}

// Binds what is chosen, of a kind, where there is one.
fn bind_chosen(alloc: Global, plain: Option<Scalar>, tree: Tree) -> Result<Bound, Untyped>
    ensures kind { IfOk result (λ bound. option_map Kind.Plain plain ≡ Some bound.kind) }
    ensures tree { IfOk result (λ bound. IfSome plain (λ plain. (row : List SomeValue)
        → tree_value bound.tree row ≡ chosen_value plain (tree_value tree row))) }
    ensures refused { IfErr result (Refuses (or_refuse TypeMismatch plain)) }
{
    match plain {
        Some(plain) => {
            let chosen = chosen(alloc, plain, tree)?;
            Ok(Bound::new(alloc, Kind::Plain(plain), chosen)?)
        }
        None => Err(Untyped::TypeMismatch),
    }
}

// What is chosen, of a kind: an integer has 64 bits.
fn chosen(alloc: Global, plain: Scalar, tree: Tree) -> Result<Tree, Untyped>
    ensures chosen { IfOk result (λ chosen. (row : List SomeValue)
        → tree_value chosen row ≡ chosen_value plain (tree_value tree row)) }
    ensures err { IfErr result (λ fault. fault ≡ Untyped.NoMemory) }
{
    match plain {
        Scalar::Bool | Scalar::Text => Ok(tree),
        _ => {
            let arg = Boxed::new(alloc, tree)?;
            Ok(Tree::Widen {
                signed: is_signed(plain),
                arg,
            })
        }
    }
}
