// Where states end in bytes.
ghost use Rattle.std.specs.Prelude.{◌≡◌, ◌≢◌, ◌≤◌, ◌<◌, ◌^◌, ◌++◌, ℕ, List, Option, true, length, drop, IfSome, IsNone};
ghost use Rattle.std.specs.Int.{to_le_bytes, w64};
ghost use Rattle.std.specs.List.{All};
ghost use Rattle.chv_agg.specs.AggregateLaws.{IsSet, has_few};
ghost use Rattle.chv_agg.specs.Plain.{scalar_spelling, values_spelling};
ghost use Rattle.chv_agg.specs.StateBytes.{found_bytes, set_bytes, state_bytes};
ghost use Rattle.chv_agg.specs.StateReading.{EndsAt, is_above, RiseAt};
ghost use Rattle.chv_agg.specs.States.{FitsFound, FitsState};
ghost use Rattle.chv_agg.specs.declared.any_agg.AnyAgg.{AnyAgg as SomeState};
ghost use Rattle.chv_bytes.specs.Places.{StandsAt};
ghost use Rattle.chv_types.specs.Fits.{IsOfScalar};
ghost use Rattle.chv_types.specs.Members.{Rises};
ghost use Rattle.chv_types.specs.Order.{value_cmp};
ghost use Rattle.chv_types.specs.Values.{seen_value};
ghost use Rattle.chv_types.specs.declared.value.Value.{Value as SomeValue};

use crate::plain::seen_scalar;
use crate::reading::read_number;
use chv_types::{AggName, Scalar, Seen, compare_seen};

/// The place behind the state of a function over values of a kind whose bytes begin at `at`. None where no state's do. It takes no
/// memory.
pub fn state_end(bytes: &[u8], at: usize, agg: AggName, arg: Scalar) -> Option<usize>
    ensures found { IfSome result (λ behind. EndsAt (FitsState agg arg) (state_bytes arg) bytes.now at behind) }
    ensures none { IsNone result → (state : SomeState) (rest : List ℕ) → FitsState agg arg state → drop at bytes.now ≢ state_bytes arg state ++ rest }
{
    match agg {
        AggName::Count => number_end(bytes, at),
        AggName::Sum => number_end(bytes, at),
        AggName::Min => found_end(bytes, at, arg),
        AggName::Max => found_end(bytes, at, arg),
        AggName::UniqExact => set_end(bytes, at, arg),
    }
}

// The place behind the number of 8 bytes at a place.
fn number_end(bytes: &[u8], at: usize) -> Option<usize>
    ensures found { IfSome result (λ behind. EndsAt (λ (n : ℕ). n < 2 ^ 64) (to_le_bytes w64) bytes.now at behind) }
    ensures none { IsNone result → (n : ℕ) (rest : List ℕ) → drop at bytes.now ≢ to_le_bytes w64 n ++ rest }
{
    let (_, behind) = read_number(bytes, at)?;
    Some(behind)
}

// The place behind the value at a place, behind the byte 1, or none behind the byte 0.
fn found_end(bytes: &[u8], at: usize, arg: Scalar) -> Option<usize>
    ensures found { IfSome result (λ behind. EndsAt (FitsFound arg) (found_bytes arg) bytes.now at behind) }
    ensures none { IsNone result → (found : Option SomeValue) (rest : List ℕ) → FitsFound arg found → drop at bytes.now ≢ found_bytes arg found ++ rest }
{
    if at >= bytes.len() {
        return None;
    }
    let tag = bytes[at];
    if tag == 0 {
        return Some(at + 1);
    }
    if tag != 1 {
        return None;
    }
    let (_, behind) = seen_scalar(arg, bytes, at + 1)?;
    Some(behind)
}

// The place behind the set of values at a place. Each value has a byte or more.
fn set_end(bytes: &[u8], at: usize, arg: Scalar) -> Option<usize>
    ensures found { IfSome result (λ behind. EndsAt (λ (values : List SomeValue). IsSet arg values × has_few values) (set_bytes arg) bytes.now at behind) }
    ensures none { IsNone result → (values : List SomeValue) (rest : List ℕ) → IsSet arg values → has_few values → drop at bytes.now ≢ set_bytes arg values ++ rest }
{
    let (count, start) = read_number(bytes, at)?;
    if count > (bytes.len() - start) as u64 {
        return None;
    }
    rising_end(bytes, start, arg, count)
}

// The place behind so many values at a place that rise.
fn rising_end(bytes: &[u8], at: usize, arg: Scalar, count: u64) -> Option<usize>
    requires within { at ≤ length bytes.now }
    ensures found { IfSome result (λ behind. (values : List SomeValue) × RiseAt arg values bytes.now at behind × (length values ≡ count)) }
    ensures none { IsNone result → (values : List SomeValue) (rest : List ℕ) → All (IsOfScalar arg) values → Rises value_cmp values → length values ≡ count → drop at bytes.now ≢ values_spelling arg values ++ rest }
{
    let mut last = None;
    let mut place = at;
    for _ in 0..count {
        let (value, behind) = next_seen(bytes, place, arg, last)?;
        last = Some(value);
        place = behind;
    }
    Some(place)
}

// The value at a place, and the place behind it. None where no value above the last one stands there.
fn next_seen<'a>(
    bytes: &'a [u8],
    at: usize,
    arg: Scalar,
    last: Option<Seen<'a>>,
) -> Option<(Seen<'a>, usize)>
    ensures kind { IfSome result (λ r. IsOfScalar arg (seen_value r.0)) }
    ensures above { IfSome result (λ r. is_above last.entry (seen_value r.0) ≡ true) }
    ensures found { IfSome result (λ r. StandsAt (scalar_spelling arg (seen_value r.0)) bytes.now at r.1) }
    ensures none { IsNone result → (value : SomeValue) (rest : List ℕ) → IsOfScalar arg value → is_above last.entry value ≡ true → drop at bytes.now ≢ scalar_spelling arg value ++ rest }
{
    let (value, behind) = seen_scalar(arg, bytes, at)?;
    if !is_above(last, value) {
        return None;
    }
    Some((value, behind))
}

// Whether a value stands above the last one, where there is one.
fn is_above(last: Option<Seen<'_>>, value: Seen<'_>) -> bool
    ensures { result ≡ is_above last.entry (seen_value value.entry) }
{
    match last {
        Some(last) => compare_seen(last, value).is_lt(),
        None => true,
    }
}
