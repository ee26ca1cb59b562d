// Aggregate functions.
ghost use Rattle.std.specs.Prelude.{◌≡◌, false, IsNone, IsTrue, IfSome};
ghost use Rattle.chv_types.specs.Aggregates.{agg_of, agg_word, ending, form_of, in_any_case, is_agg_name, result_of};

use crate::Scalar;

/// An aggregate function.
#[derive(Clone, Copy, Debug, PartialEq, Eq)]
pub enum AggName {
    /// The number of rows.
    Count,
    /// The sum, modulo 2^64.
    Sum,
    /// The least value.
    Min,
    /// The greatest value.
    Max,
    /// The number of different values.
    UniqExact,
}

/// What a call of an aggregate function takes and gives.
#[derive(Clone, Copy, Debug, PartialEq, Eq)]
pub enum AggForm {
    /// It takes values and gives the result.
    Plain,
    /// It takes values and gives a state.
    State,
    /// It takes states and gives the result.
    Merge,
    /// It takes states and gives a state.
    MergeState,
}

impl AggName {
    // The name of the function.
    fn word(self) -> &'static str
        ensures { result.now ≡ agg_word self }
    {
        match self {
            AggName::Count => "count",
            AggName::Sum => "sum",
            AggName::Min => "min",
            AggName::Max => "max",
            AggName::UniqExact => "uniqExact",
        }
    }
}

impl AggForm {
    // What stands behind the name of the function.
    fn ending(self) -> &'static str
        ensures { result.now ≡ ending self }
    {
        match self {
            AggForm::Plain => "",
            AggForm::State => "State",
            AggForm::Merge => "Merge",
            AggForm::MergeState => "MergeState",
        }
    }
}

/// The aggregate function and the form with this name. It is matched letter by letter, but for `count`, `sum`, `min` and
/// `max`, which may be written in any letter case.
#[tactic(auto, unfolding(crate::specs::Aggregates::agg_of))]
pub fn agg_named(name: &[u8]) -> Option<(AggName, AggForm)>
    ensures named { result ≡ agg_of name.now }
    ensures found { IfSome result (λ named. IsTrue (is_agg_name named.0 named.1 name.now)) }
    ensures none { IsNone result → (agg : AggName) (form : AggForm) → is_agg_name agg form name.now ≡ false }
{
    if let Some(form) = form_named(AggName::Count, name) {
        return Some((AggName::Count, form));
    }
    if let Some(form) = form_named(AggName::Sum, name) {
        return Some((AggName::Sum, form));
    }
    if let Some(form) = form_named(AggName::Min, name) {
        return Some((AggName::Min, form));
    }
    if let Some(form) = form_named(AggName::Max, name) {
        return Some((AggName::Max, form));
    }
    if let Some(form) = form_named(AggName::UniqExact, name) {
        return Some((AggName::UniqExact, form));
    }
    None
}

// The form in which a name names the function.
fn form_named(agg: AggName, name: &[u8]) -> Option<AggForm>
    ensures form { result ≡ form_of agg name.now }
    ensures found { IfSome result (λ form. IsTrue (is_agg_name agg form name.now)) }
    ensures none { IsNone result → (form : AggForm) → is_agg_name agg form name.now ≡ false }
{
    if is_agg_name(agg, AggForm::Plain, name) {
        return Some(AggForm::Plain);
    }
    if is_agg_name(agg, AggForm::State, name) {
        return Some(AggForm::State);
    }
    if is_agg_name(agg, AggForm::Merge, name) {
        return Some(AggForm::Merge);
    }
    if is_agg_name(agg, AggForm::MergeState, name) {
        return Some(AggForm::MergeState);
    }
    None
}

// Whether a name names the function in the form.
#[tactic(auto, unfolding(crate::specs::Aggregates::is_agg_name), using(crate::proofs::Names::name_laws))]
fn is_agg_name(agg: AggName, form: AggForm, name: &[u8]) -> bool
    ensures { result ≡ is_agg_name agg form name.now }
{
    if in_any_case(agg, form) {
        return name.eq_ignore_ascii_case(agg.word().as_bytes());
    }
    match name.strip_prefix(agg.word().as_bytes()) {
        Some(rest) => rest == form.ending().as_bytes(),
        None => false,
    }
}

// Whether the name may be written in any letter case.
fn in_any_case(agg: AggName, form: AggForm) -> bool
    ensures { result ≡ in_any_case agg form }
{
    match form {
        AggForm::Plain => match agg {
            AggName::UniqExact => false,
            _ => true,
        },
        _ => false,
    }
}

/// The kind of the result over values of a kind; None where the function does not take them. Of `count`, which takes
/// no values, the kind is written as UInt64.
pub fn result_kind(agg: AggName, arg: Scalar) -> Option<Scalar>
    ensures { result ≡ result_of agg arg }
{
    match agg {
        AggName::Count => match arg {
            Scalar::UInt64 => Some(Scalar::UInt64),
            _ => None,
        },
        AggName::Sum => sum_kind(arg),
        AggName::Min | AggName::Max => Some(arg),
        AggName::UniqExact => Some(Scalar::UInt64),
    }
}

// The kind of a sum.
fn sum_kind(arg: Scalar) -> Option<Scalar>
    ensures { result ≡ result_of AggName.Sum arg }
{
    match arg {
        Scalar::UInt8 | Scalar::UInt16 | Scalar::UInt32 | Scalar::UInt64 => Some(Scalar::UInt64),
        Scalar::Int8 | Scalar::Int16 | Scalar::Int32 | Scalar::Int64 => Some(Scalar::Int64),
        Scalar::Bool | Scalar::Text => None,
    }
}
