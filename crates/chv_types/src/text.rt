// Values that are read from texts.
ghost use Rattle.std.specs.Prelude.{◌≡◌, ◌^◌, ◌<ℤ◌, pos, neg_ℤ, IfOk, IfErr, Some, None};
ghost use Rattle.std.specs.Char.{is_ascii_digit};
ghost use Rattle.std.specs.List.{fold, list_all};
ghost use Rattle.std.specs.Option.{option_map, option_and_then};
ghost use Rattle.chv_types.specs.Texts.{are_digits, digits_number, small, whole_number, with_digit, within, whole_of, truth_of, text_of, value_of};

use crate::{Bytes, Scalar, Value};
use std::alloc::{AllocError, Global};

/// The most bytes that a text of kind String has.
pub const MAX_TEXT: usize = 1048576;

/// Why a text gives no value.
#[derive(Clone, Copy, Debug, PartialEq, Eq)]
pub enum TextFault {
    /// The text writes no value of the kind.
    BadLiteral,
    /// There was no memory for the value.
    NoMemory,
}

impl From<AllocError> for TextFault {
    ghost use Rattle.chv_types.specs.declared.text.TextFault.TheVariants as fault;

    ghost from_gives = { λ _ e. e ≡ fault.NoMemory };

    fn from(_: AllocError) -> TextFault {
        TextFault::NoMemory
    }
}

/// The value of a kind that a text writes. An integer is one digit or more, with or without a `-`, and lies in the range of
/// its kind; a Bool is `true`, `false`, `1` or `0`; a String is its bytes, of which it has at most 1,048,576.
pub fn parse_text(alloc: Global, kind: Scalar, text: &[u8]) -> Result<Value, TextFault>
    ensures value { IfOk result (λ value. value_of kind text.now ≡ Some value) }
    ensures bad { IfErr result (λ fault. fault ≡ TextFault.BadLiteral → value_of kind text.now ≡ None) }
{
    match kind {
        Scalar::Bool => found(parse_truth(text)),
        Scalar::Text => parse_bytes(alloc, text),
        _ => match kind.range() {
            Some((low, high)) => found(parse_whole(low, high, text)),
            None => Err(TextFault::BadLiteral),
        },
    }
}

// A value, or the fault that there is none.
fn found(value: Option<Value>) -> Result<Value, TextFault>
    ensures value { IfOk result (λ found. value ≡ Some found) }
    ensures bad { IfErr result (λ fault. value ≡ None) }
{
    match value {
        Some(value) => Ok(value),
        None => Err(TextFault::BadLiteral),
    }
}

// The truth that a text writes.
#[tactic(auto, unfolding(crate::specs::Texts::truth_of))]
fn parse_truth(text: &[u8]) -> Option<Value>
    ensures { result ≡ truth_of text.now }
{
    if text == b"true".as_slice() || text == b"1".as_slice() {
        Some(Value::Truth(true))
    } else if text == b"false".as_slice() || text == b"0".as_slice() {
        Some(Value::Truth(false))
    } else {
        None
    }
}

// A text as a value.
#[tactic(auto, unfolding(crate::specs::Texts::text_of))]
fn parse_bytes(alloc: Global, text: &[u8]) -> Result<Value, TextFault>
    ensures value { IfOk result (λ value. text_of text.now ≡ Some value) }
    ensures bad { IfErr result (λ fault. fault ≡ TextFault.BadLiteral → text_of text.now ≡ None) }
{
    if text.len() > MAX_TEXT {
        return Err(TextFault::BadLiteral);
    }
    Ok(Value::Text(Bytes::from_slice(alloc, text)?))
}

// The number from `low` to `high` that a text writes.
fn parse_whole(low: i128, high: i128, text: &[u8]) -> Option<Value>
    requires low { neg_ℤ (pos (2 ^ 64)) <ℤ low }
    requires high { high <ℤ pos (2 ^ 64) }
    ensures { result ≡ whole_of (Some (low, high)) text.now }
{
    match text {
        [first, rest @ ..] => {
            if *first == b'-' {
                parse_minus(low, high, rest)
            } else {
                parse_plain(low, high, text)
            }
        }
        [] => None,
    }
}

// The number from `low` to `high` that digits behind a `-` write.
fn parse_minus(low: i128, high: i128, digits: &[u8]) -> Option<Value>
    requires { neg_ℤ (pos (2 ^ 64)) <ℤ low }
    ensures { result ≡ option_and_then (within (low, high)) (option_map (λ n. neg_ℤ (pos n)) (digits_number digits.now)) }
{
    match whole_number(digits) {
        Some(n) => minus_in_range(low, high, n),
        None => None,
    }
}

// The number from `low` to `high` that digits write.
fn parse_plain(low: i128, high: i128, digits: &[u8]) -> Option<Value>
    requires { high <ℤ pos (2 ^ 64) }
    ensures { result ≡ option_and_then (within (low, high)) (option_map pos (digits_number digits.now)) }
{
    match whole_number(digits) {
        Some(n) => plain_in_range(low, high, n),
        None => None,
    }
}

// A number with a `-`, where it lies from `low` to `high`.
fn minus_in_range(low: i128, high: i128, n: u64) -> Option<Value>
    ensures { result ≡ within (low, high) (neg_ℤ (pos n)) }
{
    in_range(low, high, -i128::from(n))
}

// A number without sign, where it lies from `low` to `high`.
fn plain_in_range(low: i128, high: i128, n: u64) -> Option<Value>
    ensures { result ≡ within (low, high) (pos n) }
{
    in_range(low, high, i128::from(n))
}

// A number from `low` to `high` as a value.
#[tactic(auto, unfolding(crate::specs::Texts::within))]
fn in_range(low: i128, high: i128, n: i128) -> Option<Value>
    ensures { result ≡ within (low, high) n }
{
    if low <= n && n <= high {
        Some(Value::Whole(n))
    } else {
        None
    }
}

/// The number that decimal digits write, one or more, where it has 64 bits.
#[tactic(auto, unfolding(crate::specs::Texts::digits_number))]
pub fn whole_number(text: &[u8]) -> Option<u64>
    ensures { result ≡ whole_number text.now }
{
    if !are_digits(text) {
        return None;
    }
    decimal_number(text)
}

// Whether a text is one decimal digit or more.
fn are_digits(text: &[u8]) -> bool
    ensures { result ≡ are_digits text.now }
{
    !text.is_empty() && all_digits(text)
}

// Whether each byte is a decimal digit.
fn all_digits(text: &[u8]) -> bool
    ensures { result ≡ list_all is_ascii_digit text.now }
{
    text.iter().all(|byte| byte.is_ascii_digit())
}

// The number of these digits, where it has 64 bits.
fn decimal_number(digits: &[u8]) -> Option<u64>
    ensures { result ≡ small (fold with_digit 0 digits.now) }
{
    let mut n: u64 = 0;
    for digit in digits {
        n = n
            .checked_mul(10)?
            .checked_add(u64::from(digit.saturating_sub(b'0')))?;
    }
    Some(n)
}
