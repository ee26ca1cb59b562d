// The canonical text of expressions.
ghost use Rattle.std.specs.Prelude.{◌≡◌, ◌++◌, OnOk, IfOk, codes};
ghost use Rattle.std.specs.List.{flat_map};
ghost use Rattle.chv_print.specs.Texts.{listed};
ghost use Rattle.chv_ast.specs.Formed.{FormedExpr};
ghost use Rattle.chv_ast.specs.Grammar.{IsExpr};
ghost use Rattle.chv_lex.specs.Writes.{Writes};
ghost use Rattle.chv_print.specs.ExprTexts as spec;

use crate::list::Printed;
use crate::name::{put_literal, put_name};
use chv_ast::{Args, BinaryOp, Expr, UnaryOp};
use std::alloc::{AllocError, Global};

/// The canonical text of an expression.
pub fn expr_text(alloc: Global, e: &Expr) -> Result<Vec<u8>, AllocError>
    ensures text { IfOk result (λ text. text.items ≡ spec.expr_text e.now) }
    ensures read_back { IfOk result (λ text. FormedExpr e.now → Writes IsExpr e.now text.items) }
{
    let mut text = Vec::new(alloc);
    put_expr(&mut text, e)?;
    Ok(text)
}

/// Puts an expression behind `out`.
#[cycle(put)]
#[tactic(auto, using(crate::proofs::ExprLaws::expr_laws))]
pub fn put_expr(out: &mut Vec<u8>, e: &Expr) -> Result<(), AllocError>
    ensures ok { OnOk result (out.new.items ≡ out.old.items ++ spec.expr_text e.now) }
{
    match e {
        Expr::Column(name) => put_name(out, name.as_slice()),
        Expr::Literal(literal) => put_literal(out, literal),
        Expr::Unary { op, arg } => {
            out.push(b'(')?;
            put_unary_op(out, *op)?;
            put_expr(out, arg.get())?;
            out.push(b')')?;
            Ok(())
        }
        Expr::Binary { op, left, right } => {
            out.push(b'(')?;
            put_expr(out, left.get())?;
            put_binary_op(out, *op)?;
            put_expr(out, right.get())?;
            out.push(b')')?;
            Ok(())
        }
        Expr::Call { function, args } => {
            put_name(out, function.as_slice())?;
            out.push(b'(')?;
            put_args(out, args)?;
            out.push(b')')?;
            Ok(())
        }
    }
}

/// Puts the arguments of a call behind `out`.
#[cycle(put)]
#[tactic(auto, using(crate::proofs::ExprLaws::expr_laws))]
fn put_args(out: &mut Vec<u8>, args: &Args) -> Result<(), AllocError>
    ensures ok { OnOk result (out.new.items ≡ out.old.items ++ listed (λ text. text) (spec.argument_texts args.now)) }
{
    match args {
        Args::End => Ok(()),
        Args::More(first, rest) => {
            put_expr(out, first.get())?;
            put_args_behind(out, rest.get())
        }
    }
}

/// Puts the arguments of a call behind `out`, where others stand in front of them.
#[cycle(put)]
#[tactic(auto, using(crate::proofs::ExprLaws::expr_laws))]
fn put_args_behind(out: &mut Vec<u8>, args: &Args) -> Result<(), AllocError>
    ensures ok { OnOk result (out.new.items ≡ out.old.items ++ flat_map (λ text. codes ", " ++ text) (spec.argument_texts args.now)) }
{
    match args {
        Args::End => Ok(()),
        Args::More(first, rest) => {
            out.extend_from_slice(b", ")?;
            put_expr(out, first.get())?;
            put_args_behind(out, rest.get())
        }
    }
}

/// Puts an operation with one operand behind `out`.
fn put_unary_op(out: &mut Vec<u8>, op: UnaryOp) -> Result<(), AllocError>
    ensures ok { OnOk result (out.new.items ≡ out.old.items ++ spec.unary_text op) }
{
    out.extend_from_slice(match op {
        UnaryOp::Minus => b"-".as_slice(),
        UnaryOp::Not => b"NOT ",
    })
}

/// Puts an operation with two operands behind `out`, with a space on both sides.
fn put_binary_op(out: &mut Vec<u8>, op: BinaryOp) -> Result<(), AllocError>
    ensures ok { OnOk result (out.new.items ≡ out.old.items ++ codes " " ++ spec.binary_text op ++ codes " ") }
{
    out.push(b' ')?;
    out.extend_from_slice(sign_of(op))?;
    out.push(b' ')?;
    Ok(())
}

/// The sign of an operation with two operands, or its word.
fn sign_of(op: BinaryOp) -> &'static [u8]
    ensures { result.now ≡ spec.binary_text op }
{
    match op {
        BinaryOp::Or => b"OR",
        BinaryOp::And => b"AND",
        BinaryOp::Equal => b"=",
        BinaryOp::Unequal => b"!=",
        BinaryOp::Less => b"<",
        BinaryOp::LessEqual => b"<=",
        BinaryOp::Greater => b">",
        BinaryOp::GreaterEqual => b">=",
        BinaryOp::Plus => b"+",
        BinaryOp::Minus => b"-",
        BinaryOp::Times => b"*",
        BinaryOp::Modulo => b"%",
    }
}

impl Printed for Expr {
    ghost text = { spec.expr_text };

    fn put(&self, out: &mut Vec<u8>) -> Result<(), AllocError> {
        put_expr(out, self)
    }
}
