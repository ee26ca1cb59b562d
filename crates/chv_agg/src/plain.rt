// Plain values in bytes.
ghost use Rattle.std.specs.Prelude.{List, ℕ, ℤ, ◌≡◌, ◌≢◌, ◌≤◌, ◌++◌, length, drop, Some, IfOk, IfSome, IsNone, OnOk, OnErr};
ghost use Rattle.chv_agg.specs.Plain.{integers_of, scalar_code, scalar_spelling, whole_spelling, truth_spelling};
ghost use Rattle.chv_bytes.specs.Places.{StandsAt};
ghost use Rattle.chv_bytes.specs.Runs.{run_bytes};
ghost use Rattle.chv_types.specs.Fits.{IsOfScalar};
ghost use Rattle.chv_types.specs.Kinds.{range_of, LiesIn};
ghost use Rattle.chv_types.specs.Values.{seen_value};
ghost use Rattle.chv_types.specs.declared.value.Value.{Value as SomeValue};

use chv_bytes::{IntKind, put_int, put_run, read_int, read_run};
use chv_types::{MAX_TEXT, Scalar, Seen, Value};
use std::alloc::{AllocError, Global};

/// The code of a kind of plain values.
pub fn scalar_code(scalar: Scalar) -> u8
    ensures { result ≡ scalar_code scalar }
{
    match scalar {
        Scalar::UInt8 => 1,
        Scalar::UInt16 => 2,
        Scalar::UInt32 => 3,
        Scalar::UInt64 => 4,
        Scalar::Int8 => 5,
        Scalar::Int16 => 6,
        Scalar::Int32 => 7,
        Scalar::Int64 => 8,
        Scalar::Bool => 9,
        Scalar::Text => 10,
    }
}

/// Puts a value of a plain kind behind `out`: an integer in its kind's width, a truth as 0 or 1, a text behind its length.
pub fn spell_scalar(scalar: Scalar, v: &Value, out: &mut Vec<u8>) -> Result<(), AllocError>
    requires kind { IsOfScalar scalar v.now }
    ensures put { OnOk result (out.new.items ≡ out.old.items ++ scalar_spelling scalar v.now) }
    ensures err { OnErr result (out.new.items ≡ out.old.items) }
{
    match v {
        Value::Whole(n) => spell_whole(scalar, *n, out),
        Value::Truth(truth) => {
            let byte = [u8::from(*truth)];
            out.extend_from_slice(&byte)
        }
        Value::Text(text) => put_run(out, text.as_slice()),
        Value::State(_) => {
            prove!(false);
            Ok(())
        }
    }
}

// Puts an integer behind `out`.
fn spell_whole(scalar: Scalar, n: i128, out: &mut Vec<u8>) -> Result<(), AllocError>
    requires range { LiesIn (range_of scalar) n }
    ensures put { OnOk result (out.new.items ≡ out.old.items ++ whole_spelling (integers_of scalar) n) }
    ensures err { OnErr result (out.new.items ≡ out.old.items) }
{
    match scalar {
        Scalar::UInt8 => put_int(out, IntKind::U8, n),
        Scalar::UInt16 => put_int(out, IntKind::U16, n),
        Scalar::UInt32 => put_int(out, IntKind::U32, n),
        Scalar::UInt64 => put_int(out, IntKind::U64, n),
        Scalar::Int8 => put_int(out, IntKind::I8, n),
        Scalar::Int16 => put_int(out, IntKind::I16, n),
        Scalar::Int32 => put_int(out, IntKind::I32, n),
        Scalar::Int64 => put_int(out, IntKind::I64, n),
        Scalar::Bool | Scalar::Text => {
            prove!(false);
            Ok(())
        }
    }
}

/// The value of a plain kind whose spelling begins at `at`, and the place behind it. None where no value's does.
///
/// The length of a text is compared with the bytes that are left before memory is taken for it.
pub fn read_scalar(
    alloc: Global,
    scalar: Scalar,
    bytes: &[u8],
    at: usize,
) -> Result<Option<(Value, usize)>, AllocError>
    ensures kind { IfOk result (λ read. IfSome read (λ r. IsOfScalar scalar r.0)) }
    ensures found { IfOk result (λ read. IfSome read (λ r. StandsAt (scalar_spelling scalar r.0) bytes.now at r.1)) }
    ensures none { IfOk result (λ read. IsNone read → (value : SomeValue) (rest : List ℕ) → IsOfScalar scalar value → drop at bytes.now ≢ scalar_spelling scalar value ++ rest) }
{
    match seen_scalar(scalar, bytes, at) {
        Some((seen, behind)) => Ok(Some((seen.to_value(alloc)?, behind))),
        None => Ok(None),
    }
}

/// The same value where it stands.
pub(crate) fn seen_scalar(scalar: Scalar, bytes: &[u8], at: usize) -> Option<(Seen<'_>, usize)>
    ensures kind { IfSome result (λ r. IsOfScalar scalar (seen_value r.0)) }
    ensures found { IfSome result (λ r. StandsAt (scalar_spelling scalar (seen_value r.0)) bytes.now at r.1) }
    ensures none { IsNone result → (value : SomeValue) (rest : List ℕ) → IsOfScalar scalar value → drop at bytes.now ≢ scalar_spelling scalar value ++ rest }
{
    match scalar {
        Scalar::Bool => seen_truth(bytes, at),
        Scalar::Text => seen_text(bytes, at),
        Scalar::UInt8 => seen_whole(Scalar::UInt8, IntKind::U8, bytes, at),
        Scalar::UInt16 => seen_whole(Scalar::UInt16, IntKind::U16, bytes, at),
        Scalar::UInt32 => seen_whole(Scalar::UInt32, IntKind::U32, bytes, at),
        Scalar::UInt64 => seen_whole(Scalar::UInt64, IntKind::U64, bytes, at),
        Scalar::Int8 => seen_whole(Scalar::Int8, IntKind::I8, bytes, at),
        Scalar::Int16 => seen_whole(Scalar::Int16, IntKind::I16, bytes, at),
        Scalar::Int32 => seen_whole(Scalar::Int32, IntKind::I32, bytes, at),
        Scalar::Int64 => seen_whole(Scalar::Int64, IntKind::I64, bytes, at),
    }
}

// The integer whose spelling begins at a place, and the place behind it.
fn seen_whole(
    scalar: Scalar,
    integers: IntKind,
    bytes: &[u8],
    at: usize,
) -> Option<(Seen<'_>, usize)>
    requires integers { integers_of scalar ≡ Some integers }
    ensures kind { IfSome result (λ r. IsOfScalar scalar (seen_value r.0)) }
    ensures found { IfSome result (λ r. StandsAt (scalar_spelling scalar (seen_value r.0)) bytes.now at r.1) }
    ensures none { IsNone result → (value : SomeValue) (rest : List ℕ) → IsOfScalar scalar value → drop at bytes.now ≢ scalar_spelling scalar value ++ rest }
{
    let (n, behind) = read_int(bytes, at, integers)?;
    Some((Seen::Whole(n), behind))
}

// The truth whose spelling begins at a place, and the place behind it.
fn seen_truth(bytes: &[u8], at: usize) -> Option<(Seen<'_>, usize)>
    ensures kind { IfSome result (λ r. IsOfScalar Scalar.Bool (seen_value r.0)) }
    ensures found { IfSome result (λ r. StandsAt (scalar_spelling Scalar.Bool (seen_value r.0)) bytes.now at r.1) }
    ensures none { IsNone result → (value : SomeValue) (rest : List ℕ) → IsOfScalar Scalar.Bool value → drop at bytes.now ≢ scalar_spelling Scalar.Bool value ++ rest }
{
    if at >= bytes.len() {
        return None;
    }
    let byte = bytes[at];
    if byte == 0 {
        return Some((Seen::Truth(false), at + 1));
    }
    if byte == 1 {
        return Some((Seen::Truth(true), at + 1));
    }
    None
}

// The text whose spelling begins at a place, and the place behind it.
fn seen_text(bytes: &[u8], at: usize) -> Option<(Seen<'_>, usize)>
    ensures kind { IfSome result (λ r. IsOfScalar Scalar.Text (seen_value r.0)) }
    ensures found { IfSome result (λ r. StandsAt (scalar_spelling Scalar.Text (seen_value r.0)) bytes.now at r.1) }
    ensures none { IsNone result → (value : SomeValue) (rest : List ℕ) → IsOfScalar Scalar.Text value → drop at bytes.now ≢ scalar_spelling Scalar.Text value ++ rest }
{
    let (start, end) = read_run(bytes, at)?;
    if end - start > MAX_TEXT {
        return None;
    }
    Some((Seen::Text(&bytes[start..end]), end))
}

/// How many canonical bytes a plain value has: 4 and 1,048,576 at most.
pub fn plain_size(scalar: Scalar, value: &Value) -> u64
    requires kind { IsOfScalar scalar value.now }
    ensures size { result ≡ length (scalar_spelling scalar value.now) }
    ensures most { result ≤ 1048580 }
{
    match value {
        Value::Whole(_) => whole_size(scalar),
        Value::Truth(_) => 1,
        Value::Text(text) => 4 + text.len() as u64,
        Value::State(_) => {
            prove!(false);
            0
        }
    }
}

// How many bytes an integer of a kind has: 8 at most.
fn whole_size(scalar: Scalar) -> u64
    ensures size { (n : ℤ) → LiesIn (range_of scalar) n → result ≡ length (whole_spelling (integers_of scalar) n) }
    ensures most { result ≤ 8 }
{
    match scalar {
        Scalar::UInt8 | Scalar::Int8 => 1,
        Scalar::UInt16 | Scalar::Int16 => 2,
        Scalar::UInt32 | Scalar::Int32 => 4,
        Scalar::UInt64 | Scalar::Int64 => 8,
        Scalar::Bool | Scalar::Text => 0,
    }
}
