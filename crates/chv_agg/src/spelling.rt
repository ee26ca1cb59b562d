// States in bytes.
ghost use Rattle.std.specs.Prelude.{◌≡◌, ◌++◌, IfOk, OnOk};
ghost use Rattle.std.specs.List.{All};
ghost use Rattle.chv_agg.specs.Plain.{values_spelling};
ghost use Rattle.chv_agg.specs.StateBytes.{found_bytes, set_bytes, state_bytes};
ghost use Rattle.chv_agg.specs.States.{FitsFound, FitsState};
ghost use Rattle.chv_types.specs.Fits.{IsOfScalar};

use crate::count::Count;
use crate::extremes::{Greatest, Least};
use crate::sums::{SignedSum, UnsignedSum};
use crate::uniq::Distinct;
use crate::{Aggregate, AnyAgg, ValueSet, spell_scalar};
use chv_types::{AggName, Bytes, Scalar, Value};
use std::alloc::{AllocError, Global};

/// A state over values of a kind in bytes.
pub fn any_spell(alloc: Global, state: &AnyAgg, arg: Scalar) -> Result<Bytes, AllocError>
    requires fits { (agg : AggName) × FitsState agg arg state.now }
    ensures { IfOk result (λ bytes. bytes ≡ state_bytes arg state.now) }
{
    let mut out = Vec::new(alloc);
    put_state(state, arg, &mut out)?;
    Ok(Bytes::from_vec(out))
}

// Puts a state behind `out`.
#[tactic(auto, unfolding(crate::specs::StateBytes::state_bytes))]
fn put_state(state: &AnyAgg, arg: Scalar, out: &mut Vec<u8>) -> Result<(), AllocError>
    requires fits { (agg : AggName) × FitsState agg arg state.now }
    ensures { OnOk result (out.new.items ≡ out.old.items ++ state_bytes arg state.now) }
{
    match state {
        AnyAgg::Count(n) => Count::spell(n, arg, out),
        AnyAgg::SumU(n) => UnsignedSum::spell(n, arg, out),
        AnyAgg::SumI(n) => SignedSum::spell(n, arg, out),
        AnyAgg::Least(found) => Least::spell(found, arg, out),
        AnyAgg::Greatest(found) => Greatest::spell(found, arg, out),
        AnyAgg::Uniq(values) => Distinct::spell(values, arg, out),
    }
}

/// Puts a value behind `out`, behind the byte 1, or the byte 0 where there is none.
pub(crate) fn put_found(
    found: &Option<Value>,
    arg: Scalar,
    out: &mut Vec<u8>,
) -> Result<(), AllocError>
    requires kind { FitsFound arg found.now }
    ensures { OnOk result (out.new.items ≡ out.old.items ++ found_bytes arg found.now) }
{
    match found {
        Some(value) => {
            out.extend_from_slice(&[1])?;
            spell_scalar(arg, value, out)
        }
        None => out.extend_from_slice(&[0]),
    }
}

/// Puts a set behind `out`: how many values it has, and the values.
pub(crate) fn put_set(values: &ValueSet, arg: Scalar, out: &mut Vec<u8>) -> Result<(), AllocError>
    requires kind { All (IsOfScalar arg) values.now }
    ensures { OnOk result (out.new.items ≡ out.old.items ++ set_bytes arg values.now) }
{
    out.extend_from_slice(&(values.len() as u64).to_le_bytes())?;
    put_values(values.as_slice(), arg, out)
}

// Puts values behind `out`.
fn put_values(values: &[Value], arg: Scalar, out: &mut Vec<u8>) -> Result<(), AllocError>
    requires kind { All (IsOfScalar arg) values.now }
    ensures { OnOk result (out.new.items ≡ out.old.items ++ values_spelling arg values.now) }
{
    for i in 0..values.len() {
        spell_scalar(arg, &values[i], out)?;
    }
    Ok(())
}
