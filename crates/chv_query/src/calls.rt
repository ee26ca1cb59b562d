// Calls of aggregate functions.
ghost use Rattle.std.specs.Prelude.{◌≡◌, ◌∷◌, [], List};
ghost use Rattle.std.specs.Option.{option_map};
ghost use Rattle.chv_expr.specs.Bindings.{AreMeant};
ghost use Rattle.chv_expr.specs.Terms.{Term};
ghost use Rattle.chv_group.specs.Groups.{takes_states};
ghost use Rattle.chv_query.specs.Bound.{AnswersAs, IsCall};
ghost use Rattle.chv_query.specs.Calls.{call_kind, call_of, called_alone, called_on, called_with, over_of, same_function, values_of, wanted};
ghost use Rattle.chv_types.specs.Steps.{or_refuse};
ghost use Rattle.chv_types.specs.declared.table.Column.{Column as SomeColumn};
ghost use Rattle.chv_ast.specs.declared.refusal.Refusal.TheVariants.{TypeMismatch};

use crate::output::fault_of;
use chv_ast::{Args, Expr, Refusal};
use chv_catalog::StatementFault;
use chv_expr::{Arguments, Bound, bind_args};
use chv_group::AggCall;
use chv_types::{AggForm, AggName, Columns, Kind, Scalar, agg_named, result_kind};
use std::alloc::Global;

/// A call of an aggregate function, and what gives its argument on a row.
#[derive(Drop)]
pub struct BoundCall {
    pub call: AggCall,
    pub arg: Bound,
}

/// The aggregate function that an expression calls, the form, and the arguments; None where it is no such call.
pub fn wanted(e: &Expr) -> Option<(AggName, AggForm, &Args)>
    ensures { option_map (λ call. record { agg = call.0; form = call.1; args = call.2.now }) result ≡ wanted e.now }
{
    match e {
        Expr::Call { function, args } => match agg_named(function.as_slice()) {
            Some((agg, form)) => Some((agg, form, args)),
            None => None,
        },
        _ => None,
    }
}

/// A call of an aggregate function over columns.
pub fn bind_call(
    alloc: Global,
    columns: &Columns,
    agg: AggName,
    form: AggForm,
    args: &Args,
) -> Result<BoundCall, StatementFault>
    ensures { AnswersAs (IsCall columns.now) (call_of columns.now (record { agg = agg; form = form; args = args.now })) result }
{
    match bind_args(alloc, args, columns.as_slice()) {
        Ok(arguments) => called_with(alloc, agg, form, arguments),
        Err(fault) => Err(fault_of(fault)),
    }
}

// A call on arguments, where it takes them.
fn called_with(
    alloc: Global,
    agg: AggName,
    form: AggForm,
    arguments: Arguments,
) -> Result<BoundCall, StatementFault>
    ensures { (columns : List SomeColumn) (terms : List Term) → AreMeant columns arguments terms
        → AnswersAs (IsCall columns) (or_refuse TypeMismatch (called_with agg form terms)) result }
{
    match arguments {
        Arguments::None => called_alone(alloc, agg, form),
        Arguments::One(arg) => called_on(agg, form, arg),
        _ => Err(StatementFault::Refused(Refusal::TypeMismatch)),
    }
}

// A call without an argument.
fn called_alone(alloc: Global, agg: AggName, form: AggForm) -> Result<BoundCall, StatementFault>
    ensures { (columns : List SomeColumn) → AnswersAs (IsCall columns) (or_refuse TypeMismatch (called_alone agg form)) result }
{
    match agg {
        AggName::Count => count_rows(alloc, form),
        _ => Err(StatementFault::Refused(Refusal::TypeMismatch)),
    }
}

// A count of rows.
fn count_rows(alloc: Global, form: AggForm) -> Result<BoundCall, StatementFault>
    ensures { (columns : List SomeColumn) → AnswersAs (IsCall columns) (or_refuse TypeMismatch (called_alone AggName.Count form)) result }
{
    if takes_states(form) {
        return Err(StatementFault::Refused(Refusal::TypeMismatch));
    }
    let arg = Bound::number(alloc, 0)?;
    let call = AggCall {
        agg: AggName::Count,
        arg: Scalar::UInt64,
        form,
    };
    Ok(BoundCall { call, arg })
}

// A call on one argument.
fn called_on(agg: AggName, form: AggForm, arg: Bound) -> Result<BoundCall, StatementFault>
    ensures { (columns : List SomeColumn) (term : Term) → AreMeant columns (Arguments.One arg) (term ∷ [])
        → AnswersAs (IsCall columns) (or_refuse TypeMismatch (called_on agg form term)) result }
{
    match over_of(agg, form, arg.kind()) {
        Some(plain) => {
            let call = AggCall {
                agg,
                arg: plain,
                form,
            };
            Ok(BoundCall { call, arg })
        }
        None => Err(StatementFault::Refused(Refusal::TypeMismatch)),
    }
}

// The kind of the values that a call is over, by the kind of its argument.
fn over_of(agg: AggName, form: AggForm, kind: Kind) -> Option<Scalar>
    ensures { result ≡ over_of agg form kind }
{
    match kind {
        Kind::Plain(plain) => {
            if takes_states(form) {
                return None;
            }
            values_of(agg, plain)
        }
        Kind::State(other, plain) => {
            if takes_states(form) && same_function(agg, other) {
                return Some(plain);
            }
            None
        }
    }
}

// The kind of the values that a function is over, where it takes values of this kind.
fn values_of(agg: AggName, plain: Scalar) -> Option<Scalar>
    ensures { result ≡ values_of agg plain }
{
    match agg {
        AggName::Count => None,
        AggName::Sum => {
            if result_kind(AggName::Sum, plain).is_none() {
                return None;
            }
            Some(plain)
        }
        AggName::Min | AggName::Max | AggName::UniqExact => Some(plain),
    }
}

// Whether both are the same function.
fn same_function(a: AggName, b: AggName) -> bool
    ensures { result ≡ same_function a b }
{
    a == b
}

/// Whether a form takes states.
pub fn takes_states(form: AggForm) -> bool
    ensures { result ≡ takes_states form }
{
    match form {
        AggForm::Plain | AggForm::State => false,
        AggForm::Merge | AggForm::MergeState => true,
    }
}

/// The kind of what a call gives.
pub fn call_kind(call: AggCall) -> Kind
    ensures { result ≡ call_kind call }
{
    match call.form {
        AggForm::Plain | AggForm::Merge => match result_kind(call.agg, call.arg) {
            Some(plain) => Kind::Plain(plain),
            None => Kind::Plain(call.arg),
        },
        AggForm::State | AggForm::MergeState => Kind::State(call.agg, call.arg),
    }
}
