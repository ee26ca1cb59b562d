// The bytes by which a key is found.
ghost use Rattle.std.specs.Prelude.{◌≡◌, ◌++◌, ◌∷◌, ◌<◌, ◌^◌, ℕ, map, length, OnOk};
ghost use Rattle.std.specs.Int.{w128};
ghost use Rattle.std.specs.Int.RustNames.{FitsSigned};
ghost use Rattle.std.specs.List.{All};
ghost use Rattle.chv_group.specs.KeyBytes.{IsHeld, key_bytes, length_bytes, measured, number_bytes, value_bytes};
ghost use Rattle.chv_types.specs.Values.{seen_value};

use chv_types::Seen;
use std::alloc::AllocError;

/// Puts the bytes of a key behind `out`: other keys have other bytes.
pub(crate) fn put_key(key: &[Seen<'_>], out: &mut Vec<u8>) -> Result<(), AllocError>
    ensures put { OnOk result (out.new.items ≡ out.old.items ++ key_bytes (map seen_value key.now)) }
    ensures held { OnOk result (All IsHeld (map seen_value key.now)) }
{
    for value in key {
        put_value(*value, out)?;
    }
    Ok(())
}

// Puts the bytes of a value behind `out`.
fn put_value(value: Seen<'_>, out: &mut Vec<u8>) -> Result<(), AllocError>
    ensures put { OnOk result (out.new.items ≡ out.old.items ++ value_bytes (seen_value value.entry)) }
    ensures held { OnOk result (IsHeld (seen_value value.entry)) }
{
    match value {
        Seen::Whole(n) => put_number(n, out),
        Seen::Truth(truth) => {
            let bytes = [1, u8::from(truth)];
            out.extend_from_slice(&bytes)
        }
        Seen::Text(bytes) => put_measured(2, bytes, out),
        Seen::State(bytes) => put_measured(3, bytes, out),
    }
}

// Puts 0 and the 16 bytes of a number behind `out`.
fn put_number(n: i128, out: &mut Vec<u8>) -> Result<(), AllocError>
    ensures put { OnOk result (out.new.items ≡ out.old.items ++ 0 ∷ number_bytes n) }
    ensures held { OnOk result (FitsSigned w128 n) }
{
    out.push(0)?;
    out.extend_from_slice(&number_bytes(n))
}

// The 16 bytes of a number.
#[tactic(auto, unfolding(crate::specs::KeyBytes::number_bytes))]
fn number_bytes(n: i128) -> [u8; 16]
    ensures { result ≡ number_bytes n }
{
    n.to_le_bytes()
}

// Puts a byte, and bytes behind their length, behind `out`.
fn put_measured(sort: u8, bytes: &[u8], out: &mut Vec<u8>) -> Result<(), AllocError>
    ensures put { OnOk result (out.new.items ≡ out.old.items ++ sort ∷ measured bytes.now) }
    ensures held { OnOk result (length bytes.now < 2 ^ 64) }
{
    out.push(sort)?;
    out.extend_from_slice(&length_bytes(bytes.len() as u64))?;
    out.extend_from_slice(bytes)
}

// The 8 bytes of a length.
#[tactic(auto, unfolding(crate::specs::KeyBytes::length_bytes))]
fn length_bytes(n: u64) -> [u8; 8]
    ensures { result ≡ length_bytes n }
{
    n.to_le_bytes()
}
