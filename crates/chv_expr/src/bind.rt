// Expressions that are bound to the columns of a table.
ghost use Rattle.std.specs.Prelude.{◌≡◌, ◌<◌, length, map, IfSome, IfOk, IfErr, Ok};
ghost use Rattle.chv_expr.specs.Bindings.{Binds, BindsAll, Refuses};
ghost use Rattle.chv_expr.specs.Terms.{Term, column_term, term_of, terms_of};
ghost use Rattle.chv_types.specs.Names.{place_of};

use crate::arguments::Arguments;
use crate::call::bind_call;
use crate::literal::bind_literal;
use crate::operation::{bind_binary, bind_unary};
use crate::{Bound, Untyped};
use chv_ast::{Args, Expr};
use chv_types::{Column, Columns, Kind};
use std::alloc::Global;

/// The kind of an expression over columns whose names differ, or the first fault of a walk in which arguments come
/// before their operation, from left to right.
pub fn type_of(alloc: Global, expr: &Expr, columns: &Columns) -> Result<Kind, Untyped>
    ensures kind { IfOk result (λ kind. (term : Term) × (term_of columns.now expr.now ≡ Ok term) × (term.kind ≡ kind)) }
    ensures refused { IfErr result (λ fault. Refuses (term_of columns.now expr.now) fault) }
{
    let bound = bind_expr(alloc, expr, columns)?;
    Ok(bound.kind())
}

/// An expression over columns whose names differ, with their places in place of the names. It is refused as `type_of`
/// says.
pub fn bind_expr(alloc: Global, expr: &Expr, columns: &Columns) -> Result<Bound, Untyped>
    ensures { Binds columns.now (term_of columns.now expr.now) result }
{
    bind(alloc, expr, columns.as_slice())
}

// Binds an expression.
#[cycle(bind)]
#[tactic(auto, using(crate::proofs::TermLaws::term_laws))]
fn bind(alloc: Global, expr: &Expr, columns: &[Column]) -> Result<Bound, Untyped>
    ensures { Binds columns.now (term_of columns.now expr.now) result }
{
    match expr {
        Expr::Column(name) => bind_column(alloc, name.as_slice(), columns),
        Expr::Literal(literal) => bind_literal(alloc, literal),
        Expr::Unary { op, arg } => {
            let arg = bind(alloc, arg.get(), columns)?;
            bind_unary(alloc, *op, arg)
        }
        Expr::Binary { op, left, right } => {
            let left = bind(alloc, left.get(), columns)?;
            let right = bind(alloc, right.get(), columns)?;
            bind_binary(alloc, *op, left, right)
        }
        Expr::Call { function, args } => {
            let arguments = bind_args(alloc, args, columns)?;
            bind_call(alloc, function.as_slice(), arguments)
        }
    }
}

/// The arguments of a call over columns whose names differ, or the first that is refused.
#[cycle(bind)]
#[tactic(auto, using(crate::proofs::TermLaws::term_laws))]
pub fn bind_args(alloc: Global, args: &Args, columns: &[Column]) -> Result<Arguments, Untyped>
    ensures { BindsAll columns.now (terms_of columns.now args.now) result }
{
    match args {
        Args::End => Ok(Arguments::None),
        Args::More(first, rest) => {
            let first = bind(alloc, first.get(), columns)?;
            let rest = bind_args(alloc, rest.get(), columns)?;
            Ok(rest.behind(first))
        }
    }
}

// Binds the name of a column.
fn bind_column(alloc: Global, name: &[u8], columns: &[Column]) -> Result<Bound, Untyped>
    ensures { Binds columns.now (column_term columns.now name.now) result }
{
    match place_of(name, columns) {
        Some(place) => Ok(Bound::column(alloc, place, columns[place].kind)?),
        None => Err(Untyped::UnknownColumn),
    }
}

// The place of the column of a name.
fn place_of(name: &[u8], columns: &[Column]) -> Option<usize>
    ensures place { result ≡ place_of name.now (map (λ column. column.name) columns.now) }
    ensures within { IfSome result (λ place. place < length columns.now) }
{
    columns
        .iter()
        .position(|column| column.name.as_slice() == name)
}
