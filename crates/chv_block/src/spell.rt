// Values in bytes.
ghost use Rattle.std.specs.Prelude.{◌≡◌, ◌++◌, OnOk, OnErr};
ghost use Rattle.chv_types.specs.declared.aggregate.AggName.{AggName as SomeAgg};
ghost use Rattle.chv_types.specs.declared.kind.Scalar.{Scalar as SomeScalar};
ghost use Rattle.chv_types.specs.Order.{bytes};
ghost use Rattle.chv_block.specs.Spellings.{IsOf, value_spelling};

use chv_agg::spell_scalar;
use chv_types::{Kind, Value};
use std::alloc::AllocError;

/// Puts a value of a kind behind `out`: an integer in its kind's width, a truth as 0 or 1, a text behind its length, a state as it
/// is spelled.
pub fn spell_value(kind: Kind, v: &Value, out: &mut Vec<u8>) -> Result<(), AllocError>
    requires kind { IsOf kind v.now }
    ensures put { OnOk result (out.new.items ≡ out.old.items ++ value_spelling kind v.now) }
    ensures err { OnErr result (out.new.items ≡ out.old.items) }
{
    match kind {
        Kind::Plain(scalar) => spell_scalar(scalar, v, out),
        Kind::State(..) => spell_state(v, out),
    }
}

// Puts the bytes of a state behind `out`.
fn spell_state(v: &Value, out: &mut Vec<u8>) -> Result<(), AllocError>
    requires state { (agg : SomeAgg) × (arg : SomeScalar) × IsOf (Kind.State agg arg) v.now }
    ensures put { OnOk result (out.new.items ≡ out.old.items ++ bytes v.now) }
    ensures err { OnErr result (out.new.items ≡ out.old.items) }
{
    match v {
        Value::State(bytes) => out.extend_from_slice(bytes.as_slice()),
        _ => {
            prove!(false);
            Ok(())
        }
    }
}
