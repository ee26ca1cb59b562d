// Values out of bytes.
ghost use Rattle.std.specs.Prelude.{List, ℕ, ◌≡◌, ◌≢◌, ◌≤◌, ◌++◌, length, drop, IfOk, IfSome, IsNone};
ghost use Rattle.chv_bytes.specs.Places.{StandsAt};
ghost use Rattle.chv_types.specs.declared.value.Value.{Value as Seen};
ghost use Rattle.chv_block.specs.Spellings.{IsOf, value_spelling};

use chv_agg::{read_scalar, state_end};
use chv_types::{AggName, Bytes, Kind, Scalar, Value};
use std::alloc::{AllocError, Global};

/// The value of a kind whose spelling begins at `at`, and the place behind it. None where no value's does.
///
/// The length of a text is compared with the bytes that are left before memory is taken for it, and a state is read over first.
pub fn read_value(
    alloc: Global,
    kind: Kind,
    bytes: &[u8],
    at: usize,
) -> Result<Option<(Value, usize)>, AllocError>
    ensures kind { IfOk result (λ read. IfSome read (λ r. IsOf kind r.0)) }
    ensures found { IfOk result (λ read. IfSome read (λ r. StandsAt (value_spelling kind r.0) bytes.now at r.1)) }
    ensures none { IfOk result (λ read. IsNone read → (value : Seen) (rest : List ℕ) → IsOf kind value → drop at bytes.now ≢ value_spelling kind value ++ rest) }
{
    match kind {
        Kind::Plain(scalar) => read_scalar(alloc, scalar, bytes, at),
        Kind::State(agg, arg) => read_state(alloc, bytes, at, agg, arg),
    }
}

// The state whose spelling begins at a place, as a value, and the place behind it.
fn read_state(
    alloc: Global,
    bytes: &[u8],
    at: usize,
    agg: AggName,
    arg: Scalar,
) -> Result<Option<(Value, usize)>, AllocError>
    ensures kind { IfOk result (λ read. IfSome read (λ r. IsOf (Kind.State agg arg) r.0)) }
    ensures found { IfOk result (λ read. IfSome read (λ r. StandsAt (value_spelling (Kind.State agg arg) r.0) bytes.now at r.1)) }
    ensures none { IfOk result (λ read. IsNone read → (value : Seen) (rest : List ℕ) → IsOf (Kind.State agg arg) value → drop at bytes.now ≢ value_spelling (Kind.State agg arg) value ++ rest) }
{
    match state_end(bytes, at, agg, arg) {
        Some(end) => {
            let state = Bytes::from_slice(alloc, &bytes[at..end])?;
            Ok(Some((Value::State(state), end)))
        }
        None => Ok(None),
    }
}
