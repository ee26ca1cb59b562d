// Values that literals write.
ghost use Rattle.std.specs.Prelude.{◌≡◌, ◌≢◌, true, Ok, Err, IfOk, IfErr};
ghost use Rattle.chv_ast.specs.declared.refusal.Refusal.{Refusal};
ghost use Rattle.chv_types.specs.Texts.{value_of};
ghost use Rattle.chv_types.specs.Fits.{IsOfScalar};
ghost use Rattle.chv_query.specs.Literals.{whole_text, or_bad, whole_value, truth_value, quoted_value, literal_value};

use chv_ast::{Literal, Refusal};
use chv_catalog::StatementFault;
use chv_types::{MAX_TEXT, Scalar, TextFault, Value, parse_text};
use std::alloc::Global;

/// The value that a literal writes in a column of a kind.
#[tactic(auto, unfolding(chv_query::specs::Literals::literal_value))]
pub fn literal_value(
    alloc: Global,
    kind: Scalar,
    literal: &Literal,
) -> Result<Value, StatementFault>
    ensures value { IfOk result (λ value. literal_value kind literal.now ≡ Ok value) }
    ensures kind { IfOk result (λ value. IsOfScalar kind value) }
    ensures refused { IfErr result (λ fault. (refusal : Refusal) → fault ≡ StatementFault.Refused refusal → literal_value kind literal.now ≡ Err refusal) }
{
    match literal {
        Literal::Whole { minus, digits } => whole_value(alloc, kind, *minus, digits.as_slice()),
        Literal::Quoted(text) => quoted_value(alloc, kind, text.as_slice()),
        Literal::Truth(truth) => truth_value(kind, *truth),
    }
}

// The value of a number.
fn whole_value(
    alloc: Global,
    kind: Scalar,
    minus: bool,
    digits: &[u8],
) -> Result<Value, StatementFault>
    ensures value { IfOk result (λ value. whole_value kind (whole_text minus digits.now) ≡ Ok value) }
    ensures kind { IfOk result (λ value. IsOfScalar kind value) }
    ensures refused { IfErr result (λ fault. (refusal : Refusal) → fault ≡ StatementFault.Refused refusal → whole_value kind (whole_text minus digits.now) ≡ Err refusal) }
{
    if kind == Scalar::Text {
        return Err(StatementFault::Refused(Refusal::BadLiteral));
    }
    if minus {
        minus_value(alloc, kind, digits)
    } else {
        number_value(alloc, kind, digits)
    }
}

// The value of a number with a minus.
fn minus_value(alloc: Global, kind: Scalar, digits: &[u8]) -> Result<Value, StatementFault>
    requires number { kind ≢ Scalar.Text }
    ensures value { IfOk result (λ value. whole_value kind (whole_text true digits.now) ≡ Ok value) }
    ensures kind { IfOk result (λ value. IsOfScalar kind value) }
    ensures refused { IfErr result (λ fault. (refusal : Refusal) → fault ≡ StatementFault.Refused refusal → whole_value kind (whole_text true digits.now) ≡ Err refusal) }
{
    let mut text = Vec::from_slice(alloc, b"-")?;
    text.extend_from_slice(digits)?;
    number_value(alloc, kind, &text)
}

// The value of a number by its text.
#[tactic(auto, using(chv_query::proofs::LiteralLemmas::whole_value_number))]
fn number_value(alloc: Global, kind: Scalar, text: &[u8]) -> Result<Value, StatementFault>
    requires number { kind ≢ Scalar.Text }
    ensures value { IfOk result (λ value. whole_value kind text.now ≡ Ok value) }
    ensures kind { IfOk result (λ value. IsOfScalar kind value) }
    ensures refused { IfErr result (λ fault. (refusal : Refusal) → fault ≡ StatementFault.Refused refusal → whole_value kind text.now ≡ Err refusal) }
{
    text_value(alloc, kind, text)
}

// The value of a quoted text.
fn quoted_value(alloc: Global, kind: Scalar, text: &[u8]) -> Result<Value, StatementFault>
    ensures value { IfOk result (λ value. quoted_value kind text.now ≡ Ok value) }
    ensures kind { IfOk result (λ value. IsOfScalar kind value) }
    ensures refused { IfErr result (λ fault. (refusal : Refusal) → fault ≡ StatementFault.Refused refusal → quoted_value kind text.now ≡ Err refusal) }
{
    if text.len() > MAX_TEXT {
        return Err(StatementFault::Refused(Refusal::LimitPassed));
    }
    text_value(alloc, kind, text)
}

// The value that a text writes.
#[tactic(auto, using(chv_query::proofs::LiteralLemmas::value_of_kind))]
fn text_value(alloc: Global, kind: Scalar, text: &[u8]) -> Result<Value, StatementFault>
    ensures value { IfOk result (λ value. or_bad (value_of kind text.now) ≡ Ok value) }
    ensures kind { IfOk result (λ value. IsOfScalar kind value) }
    ensures refused { IfErr result (λ fault. (refusal : Refusal) → fault ≡ StatementFault.Refused refusal → or_bad (value_of kind text.now) ≡ Err refusal) }
{
    match parse_text(alloc, kind, text) {
        Ok(value) => Ok(value),
        Err(TextFault::BadLiteral) => Err(StatementFault::Refused(Refusal::BadLiteral)),
        Err(TextFault::NoMemory) => Err(StatementFault::NoMemory),
    }
}

// The value of TRUE or FALSE.
fn truth_value(kind: Scalar, truth: bool) -> Result<Value, StatementFault>
    ensures value { IfOk result (λ value. truth_value kind truth ≡ Ok value) }
    ensures kind { IfOk result (λ value. IsOfScalar kind value) }
    ensures refused { IfErr result (λ fault. (refusal : Refusal) → fault ≡ StatementFault.Refused refusal → truth_value kind truth ≡ Err refusal) }
{
    match kind {
        Scalar::Bool => Ok(Value::Truth(truth)),
        _ => Err(StatementFault::Refused(Refusal::BadLiteral)),
    }
}
