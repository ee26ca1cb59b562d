// Literals.
ghost use Rattle.std.specs.Prelude.{◌≡◌, IfOk, List};
ghost use Rattle.chv_expr.specs.Bindings.{Binds};
ghost use Rattle.chv_expr.specs.Terms.{literal_term};
ghost use Rattle.chv_ast.specs.declared.expr.Literal.TheVariants as literal;
ghost use Rattle.chv_types.specs.declared.table.Column.{Column as SomeColumn};

use crate::tree::Tree;
use crate::{Bound, Untyped};
use chv_ast::Literal;
use chv_types::{Bytes, Kind, MAX_TEXT, Scalar, Value, whole_number};
use std::alloc::{AllocError, Global};

/// Binds a literal.
pub fn bind_literal(alloc: Global, literal: &Literal) -> Result<Bound, Untyped>
    ensures { (columns : List SomeColumn) → Binds columns (literal_term literal.now) result }
{
    match literal {
        Literal::Whole { minus, digits } => bind_whole(alloc, *minus, digits.as_slice()),
        Literal::Quoted(text) => bind_text(alloc, text.as_slice()),
        Literal::Truth(truth) => Ok(constant(alloc, Scalar::Bool, Value::Truth(*truth))?),
    }
}

// Binds a number.
fn bind_whole(alloc: Global, minus: bool, digits: &[u8]) -> Result<Bound, Untyped>
    ensures { (columns : List SomeColumn) → Binds columns (literal_term (literal.Whole minus digits.now)) result }
{
    if minus {
        return Err(Untyped::BadLiteral);
    }
    match whole_number(digits) {
        Some(n) => Ok(constant(alloc, Scalar::UInt64, Value::Whole(i128::from(n)))?),
        None => Err(Untyped::BadLiteral),
    }
}

// Binds a text.
fn bind_text(alloc: Global, text: &[u8]) -> Result<Bound, Untyped>
    ensures { (columns : List SomeColumn) → Binds columns (literal_term (literal.Quoted text.now)) result }
{
    if text.len() > MAX_TEXT {
        return Err(Untyped::BadLiteral);
    }
    let text = Bytes::from_slice(alloc, text)?;
    Ok(constant(alloc, Scalar::Text, Value::Text(text))?)
}

// The same value over each row.
fn constant(alloc: Global, plain: Scalar, value: Value) -> Result<Bound, AllocError>
    ensures kind { IfOk result (λ bound. bound.kind ≡ Kind.Plain plain) }
    ensures tree { IfOk result (λ bound. bound.tree ≡ Tree.Constant value) }
{
    Bound::new(alloc, Kind::Plain(plain), Tree::Constant(value))
}
