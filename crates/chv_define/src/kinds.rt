// The kinds that columns' words write.
ghost use Rattle.std.specs.Prelude.{◌≡◌, IfOk, IfErr};
ghost use Rattle.chv_ast.specs.declared.refusal.Refusal.{Refusal};
ghost use Rattle.chv_ast.specs.declared.refusal.Refusal.TheVariants.{TypeMismatch, UnknownFunction};
ghost use Rattle.chv_query.specs.Definitions as spec;
ghost use Rattle.chv_types.specs.Steps.{or_refuse};

use chv_ast::{ColumnDefs, KindWord, Name, Refusal};
use chv_catalog::StatementFault;
use chv_types::{
    AggForm, AggName, Column, Columns, Kind, Scalar, agg_named, result_kind, scalar_named,
};
use std::alloc::Global;

/// The columns that are written, or the first refusal of one.
pub fn columns_of(alloc: Global, defs: &ColumnDefs) -> Result<Columns, StatementFault>
    ensures columns { IfOk result (λ columns. spec.columns_of defs.now ≡ Ok columns) }
    ensures refused { IfErr result (λ fault. (refusal : Refusal) → fault ≡ StatementFault.Refused refusal → spec.columns_of defs.now ≡ Err refusal) }
{
    let mut columns = Columns::new(alloc);
    for def in defs.as_slice() {
        let kind = kind_of(&def.kind)?;
        let name = Name::from_slice(alloc, def.name.as_slice())?;
        columns.push(Column { name, kind })?;
    }
    Ok(columns)
}

// The kind that a column's words write.
#[tactic(auto, unfolding(chv_query::specs::Definitions::kind_of))]
fn kind_of(word: &KindWord) -> Result<Kind, Refusal>
    ensures { result ≡ spec.kind_of word.now }
{
    match word {
        KindWord::Plain(name) => Ok(Kind::Plain(scalar_of(name)?)),
        KindWord::Agg { function, arg } => state_of(function_of(function)?, arg),
    }
}

// The kind of plain values with a name.
fn scalar_of(name: &Name) -> Result<Scalar, Refusal>
    ensures { result ≡ or_refuse TypeMismatch (spec.scalar_of name.now) }
{
    scalar_named(name.as_slice()).ok_or(Refusal::TypeMismatch)
}

// The function whose plain form has a name.
fn function_of(name: &Name) -> Result<AggName, Refusal>
    ensures { result ≡ or_refuse UnknownFunction (spec.function_of name.now) }
{
    let Some((agg, form)) = agg_named(name.as_slice()) else {
        return Err(Refusal::UnknownFunction);
    };
    match form {
        AggForm::Plain => Ok(agg),
        _ => Err(Refusal::UnknownFunction),
    }
}

// The states of a function. A count is of no kind, and is written as one over UInt64.
fn state_of(agg: AggName, arg: &Option<Name>) -> Result<Kind, Refusal>
    ensures { result ≡ spec.state_of agg arg.now }
{
    match arg {
        None => match agg {
            AggName::Count => Ok(Kind::State(AggName::Count, Scalar::UInt64)),
            _ => Err(Refusal::TypeMismatch),
        },
        Some(arg) => match agg {
            AggName::Count => Err(Refusal::TypeMismatch),
            _ => state_over(agg, scalar_of(arg)?),
        },
    }
}

// The states of a function over values of a kind, which has to fit it.
fn state_over(agg: AggName, arg: Scalar) -> Result<Kind, Refusal>
    ensures { result ≡ spec.state_over agg arg }
{
    match result_kind(agg, arg) {
        Some(_) => Ok(Kind::State(agg, arg)),
        None => Err(Refusal::TypeMismatch),
    }
}
