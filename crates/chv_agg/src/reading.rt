// States out of bytes.
ghost use Rattle.std.specs.Prelude.{◌≡◌, ◌≢◌, ◌≤◌, ◌<◌, ◌+◌, ◌++◌, ℕ, List, Option, true, false, length, drop, IfOk, IfSome, IsNone};
ghost use Rattle.std.specs.Int.{to_le_bytes, w64};
ghost use Rattle.std.specs.List.{All};
ghost use Rattle.chv_agg.specs.AggregateLaws.{IsSet, has_few};
ghost use Rattle.chv_agg.specs.Plain.{scalar_spelling, values_spelling};
ghost use Rattle.chv_agg.specs.StateBytes.{found_bytes, set_bytes, state_bytes};
ghost use Rattle.chv_agg.specs.StateReading.{follows, Gains, RiseAt};
ghost use Rattle.chv_agg.specs.States.{FitsFound, FitsState, is_signed};
ghost use Rattle.chv_agg.specs.declared.any_agg.AnyAgg.{AnyAgg as SomeState};
ghost use Rattle.chv_bytes.specs.Places.{StandsAt};
ghost use Rattle.chv_types.specs.Fits.{IsOfScalar};
ghost use Rattle.chv_types.specs.Members.{Rises};
ghost use Rattle.chv_types.specs.Order.{value_cmp};
ghost use Rattle.chv_types.specs.declared.value.Value.{Value as SomeValue};

use crate::count::Count;
use crate::extremes::{Greatest, Least};
use crate::sums::{SignedSum, UnsignedSum};
use crate::uniq::Distinct;
use crate::{Aggregate, AnyAgg, ValueSet, read_scalar};
use chv_bytes::{read_fixed, unfix};
use chv_types::{AggName, Scalar, Value, compare};
use sqlite_items::Items;
use std::alloc::{AllocError, Global};

/// The state of a function over values of a kind whose bytes begin at `at`, and the place behind them. None where no state's do:
/// of values that do not rise, or of more than the bytes that are left have room for. A number of values is compared with the
/// bytes that are left before memory is taken for it.
pub fn any_read(
    alloc: Global,
    bytes: &[u8],
    at: usize,
    agg: AggName,
    arg: Scalar,
) -> Result<Option<(AnyAgg, usize)>, AllocError>
    ensures fits { IfOk result (λ read. IfSome read (λ r. FitsState agg arg r.0)) }
    ensures found { IfOk result (λ read. IfSome read (λ r. StandsAt (state_bytes arg r.0) bytes.now at r.1)) }
    ensures none { IfOk result (λ read. IsNone read → (state : SomeState) (rest : List ℕ) → FitsState agg arg state → drop at bytes.now ≢ state_bytes arg state ++ rest) }
{
    match agg {
        AggName::Count => read_count(alloc, bytes, at, arg),
        AggName::Sum => read_sum(alloc, bytes, at, arg),
        AggName::Min => read_least(alloc, bytes, at, arg),
        AggName::Max => read_greatest(alloc, bytes, at, arg),
        AggName::UniqExact => read_uniq(alloc, bytes, at, arg),
    }
}

// The count at a place, and the place behind it.
#[tactic(auto, unfolding(crate::specs::StateBytes::state_bytes))]
fn read_count(
    alloc: Global,
    bytes: &[u8],
    at: usize,
    arg: Scalar,
) -> Result<Option<(AnyAgg, usize)>, AllocError>
    ensures fits { IfOk result (λ read. IfSome read (λ r. FitsState AggName.Count arg r.0)) }
    ensures found { IfOk result (λ read. IfSome read (λ r. StandsAt (state_bytes arg r.0) bytes.now at r.1)) }
    ensures none { IfOk result (λ read. IsNone read → (state : SomeState) (rest : List ℕ) → FitsState AggName.Count arg state → drop at bytes.now ≢ state_bytes arg state ++ rest) }
{
    match Count::read(alloc, bytes, at, arg)? {
        Some((n, behind)) => Ok(Some((AnyAgg::Count(n), behind))),
        None => Ok(None),
    }
}

// The sum at a place, and the place behind it.
fn read_sum(
    alloc: Global,
    bytes: &[u8],
    at: usize,
    arg: Scalar,
) -> Result<Option<(AnyAgg, usize)>, AllocError>
    ensures fits { IfOk result (λ read. IfSome read (λ r. FitsState AggName.Sum arg r.0)) }
    ensures found { IfOk result (λ read. IfSome read (λ r. StandsAt (state_bytes arg r.0) bytes.now at r.1)) }
    ensures none { IfOk result (λ read. IsNone read → (state : SomeState) (rest : List ℕ) → FitsState AggName.Sum arg state → drop at bytes.now ≢ state_bytes arg state ++ rest) }
{
    if is_signed(arg) {
        read_signed(alloc, bytes, at, arg)
    } else {
        read_unsigned(alloc, bytes, at, arg)
    }
}

// Whether a kind has integers below zero.
fn is_signed(arg: Scalar) -> bool
    ensures { result ≡ is_signed arg }
{
    match arg {
        Scalar::Int8 | Scalar::Int16 | Scalar::Int32 | Scalar::Int64 => true,
        _ => false,
    }
}

// The sum of numbers with sign at a place, and the place behind it.
#[tactic(auto, unfolding(crate::specs::StateBytes::state_bytes))]
fn read_signed(
    alloc: Global,
    bytes: &[u8],
    at: usize,
    arg: Scalar,
) -> Result<Option<(AnyAgg, usize)>, AllocError>
    requires signed { is_signed arg ≡ true }
    ensures fits { IfOk result (λ read. IfSome read (λ r. FitsState AggName.Sum arg r.0)) }
    ensures found { IfOk result (λ read. IfSome read (λ r. StandsAt (state_bytes arg r.0) bytes.now at r.1)) }
    ensures none { IfOk result (λ read. IsNone read → (state : SomeState) (rest : List ℕ) → FitsState AggName.Sum arg state → drop at bytes.now ≢ state_bytes arg state ++ rest) }
{
    match SignedSum::read(alloc, bytes, at, arg)? {
        Some((sum, behind)) => Ok(Some((AnyAgg::SumI(sum), behind))),
        None => Ok(None),
    }
}

// The sum of numbers without sign at a place, and the place behind it.
#[tactic(auto, unfolding(crate::specs::StateBytes::state_bytes))]
fn read_unsigned(
    alloc: Global,
    bytes: &[u8],
    at: usize,
    arg: Scalar,
) -> Result<Option<(AnyAgg, usize)>, AllocError>
    requires unsigned { is_signed arg ≡ false }
    ensures fits { IfOk result (λ read. IfSome read (λ r. FitsState AggName.Sum arg r.0)) }
    ensures found { IfOk result (λ read. IfSome read (λ r. StandsAt (state_bytes arg r.0) bytes.now at r.1)) }
    ensures none { IfOk result (λ read. IsNone read → (state : SomeState) (rest : List ℕ) → FitsState AggName.Sum arg state → drop at bytes.now ≢ state_bytes arg state ++ rest) }
{
    match UnsignedSum::read(alloc, bytes, at, arg)? {
        Some((sum, behind)) => Ok(Some((AnyAgg::SumU(sum), behind))),
        None => Ok(None),
    }
}

// The least value at a place, and the place behind it.
#[tactic(auto, unfolding(crate::specs::StateBytes::state_bytes))]
fn read_least(
    alloc: Global,
    bytes: &[u8],
    at: usize,
    arg: Scalar,
) -> Result<Option<(AnyAgg, usize)>, AllocError>
    ensures fits { IfOk result (λ read. IfSome read (λ r. FitsState AggName.Min arg r.0)) }
    ensures found { IfOk result (λ read. IfSome read (λ r. StandsAt (state_bytes arg r.0) bytes.now at r.1)) }
    ensures none { IfOk result (λ read. IsNone read → (state : SomeState) (rest : List ℕ) → FitsState AggName.Min arg state → drop at bytes.now ≢ state_bytes arg state ++ rest) }
{
    match Least::read(alloc, bytes, at, arg)? {
        Some((found, behind)) => Ok(Some((AnyAgg::Least(found), behind))),
        None => Ok(None),
    }
}

// The greatest value at a place, and the place behind it.
#[tactic(auto, unfolding(crate::specs::StateBytes::state_bytes))]
fn read_greatest(
    alloc: Global,
    bytes: &[u8],
    at: usize,
    arg: Scalar,
) -> Result<Option<(AnyAgg, usize)>, AllocError>
    ensures fits { IfOk result (λ read. IfSome read (λ r. FitsState AggName.Max arg r.0)) }
    ensures found { IfOk result (λ read. IfSome read (λ r. StandsAt (state_bytes arg r.0) bytes.now at r.1)) }
    ensures none { IfOk result (λ read. IsNone read → (state : SomeState) (rest : List ℕ) → FitsState AggName.Max arg state → drop at bytes.now ≢ state_bytes arg state ++ rest) }
{
    match Greatest::read(alloc, bytes, at, arg)? {
        Some((found, behind)) => Ok(Some((AnyAgg::Greatest(found), behind))),
        None => Ok(None),
    }
}

// The set of values at a place, and the place behind it.
#[tactic(auto, unfolding(crate::specs::StateBytes::state_bytes))]
fn read_uniq(
    alloc: Global,
    bytes: &[u8],
    at: usize,
    arg: Scalar,
) -> Result<Option<(AnyAgg, usize)>, AllocError>
    ensures fits { IfOk result (λ read. IfSome read (λ r. FitsState AggName.UniqExact arg r.0)) }
    ensures found { IfOk result (λ read. IfSome read (λ r. StandsAt (state_bytes arg r.0) bytes.now at r.1)) }
    ensures none { IfOk result (λ read. IsNone read → (state : SomeState) (rest : List ℕ) → FitsState AggName.UniqExact arg state → drop at bytes.now ≢ state_bytes arg state ++ rest) }
{
    match Distinct::read(alloc, bytes, at, arg)? {
        Some((values, behind)) => Ok(Some((AnyAgg::Uniq(values), behind))),
        None => Ok(None),
    }
}

/// The number of 8 bytes at a place, and the place behind it.
pub(crate) fn read_number(bytes: &[u8], at: usize) -> Option<(u64, usize)>
    ensures found { IfSome result (λ r. StandsAt (to_le_bytes w64 r.0) bytes.now at r.1) }
    ensures none { IsNone result → (n : ℕ) (rest : List ℕ) → drop at bytes.now ≢ to_le_bytes w64 n ++ rest }
{
    let (number, behind) = read_fixed::<8>(bytes, at)?;
    Some((unfix(&number), behind))
}

/// The value at a place, behind the byte 1, or none behind the byte 0; and the place behind it.
pub(crate) fn read_found(
    alloc: Global,
    bytes: &[u8],
    at: usize,
    arg: Scalar,
) -> Result<Option<(Option<Value>, usize)>, AllocError>
    ensures fits { IfOk result (λ read. IfSome read (λ r. FitsFound arg r.0)) }
    ensures found { IfOk result (λ read. IfSome read (λ r. StandsAt (found_bytes arg r.0) bytes.now at r.1)) }
    ensures none { IfOk result (λ read. IsNone read → (found : Option SomeValue) (rest : List ℕ) → FitsFound arg found → drop at bytes.now ≢ found_bytes arg found ++ rest) }
{
    if at >= bytes.len() {
        return Ok(None);
    }
    let tag = bytes[at];
    if tag == 0 {
        return Ok(Some((None, at + 1)));
    }
    if tag != 1 {
        return Ok(None);
    }
    match read_scalar(alloc, arg, bytes, at + 1)? {
        Some((value, behind)) => Ok(Some((Some(value), behind))),
        None => Ok(None),
    }
}

/// The set of values at a place, and the place behind it. Each value has a byte or more.
pub(crate) fn read_set(
    alloc: Global,
    bytes: &[u8],
    at: usize,
    arg: Scalar,
) -> Result<Option<(ValueSet, usize)>, AllocError>
    ensures fits { IfOk result (λ read. IfSome read (λ r. IsSet arg r.0)) }
    ensures few { IfOk result (λ read. IfSome read (λ r. has_few r.0)) }
    ensures found { IfOk result (λ read. IfSome read (λ r. StandsAt (set_bytes arg r.0) bytes.now at r.1)) }
    ensures none { IfOk result (λ read. IsNone read → (values : List SomeValue) (rest : List ℕ) → IsSet arg values → has_few values → drop at bytes.now ≢ set_bytes arg values ++ rest) }
{
    let Some((count, start)) = read_number(bytes, at) else {
        return Ok(None);
    };
    if count > (bytes.len() - start) as u64 {
        return Ok(None);
    }
    read_rising(alloc, bytes, start, arg, count)
}

// So many values at a place that rise, and the place behind them.
fn read_rising(
    alloc: Global,
    bytes: &[u8],
    at: usize,
    arg: Scalar,
    count: u64,
) -> Result<Option<(ValueSet, usize)>, AllocError>
    requires within { at ≤ length bytes.now }
    ensures found { IfOk result (λ read. IfSome read (λ r. RiseAt arg r.0 bytes.now at r.1)) }
    ensures count { IfOk result (λ read. IfSome read (λ r. length r.0 ≡ count)) }
    ensures none { IfOk result (λ read. IsNone read → (values : List SomeValue) (rest : List ℕ) → All (IsOfScalar arg) values → Rises value_cmp values → length values ≡ count → drop at bytes.now ≢ values_spelling arg values ++ rest) }
{
    let mut values = Items::new(alloc);
    let mut place = at;
    for _ in 0..count {
        match read_next(alloc, bytes, place, arg, &mut values)? {
            Some(behind) => place = behind,
            None => return Ok(None),
        }
    }
    Ok(Some((values, place)))
}

// Puts the value at a place behind `values`, and gives the place behind it. None where no value above the last stands there.
fn read_next(
    alloc: Global,
    bytes: &[u8],
    at: usize,
    arg: Scalar,
    values: &mut ValueSet,
) -> Result<Option<usize>, AllocError>
    ensures found { IfOk result (λ read. IfSome read (λ behind. Gains arg values.old values.new bytes.now at behind)) }
    ensures none { IfOk result (λ read. IsNone read → (value : SomeValue) (rest : List ℕ) → IsOfScalar arg value → follows values.old value ≡ true → drop at bytes.now ≢ scalar_spelling arg value ++ rest) }
{
    match read_scalar(alloc, arg, bytes, at)? {
        Some((value, behind)) => {
            if !follows(values.as_slice(), &value) {
                return Ok(None);
            }
            values.push(value)?;
            Ok(Some(behind))
        }
        None => Ok(None),
    }
}

// Whether a value stands above the last of a list, where it has one.
fn follows(values: &[Value], value: &Value) -> bool
    ensures { result ≡ follows values.now value.now }
{
    let count = values.len();
    if count == 0 {
        return true;
    }
    compare(&values[count - 1], value).is_lt()
}
