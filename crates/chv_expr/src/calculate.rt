// Numbers that wrap at 64 bits.
ghost use Rattle.std.specs.Prelude.{◌≡◌, ◌+ℤ◌, ◌-ℤ◌, ◌*ℤ◌, int_div, int_rem, ◌≢◌, pos, ℤ};
ghost use Rattle.std.specs.Result.{result_ok};
ghost use Rattle.std.specs.Int.{int_wrap, w64};
ghost use Rattle.std.specs.Option.{option_map};
ghost use Rattle.chv_expr.specs.Values.{calculated, wrapped};

use crate::ZeroDivisor;
use crate::tree::Arithmetic;

/// What two numbers give, modulo 2^64, with a sign or without.
#[tactic(auto, unfolding(crate::specs::Values::divided))]
pub fn calculate(operation: Arithmetic, signed: bool, a: i128, b: i128) -> Result<i128, ZeroDivisor>
    ensures { result_ok result ≡ option_map (wrapped signed) (calculated operation a b) }
{
    match operation {
        Arithmetic::Plus => Ok(with_sign(signed, sum(a, b))),
        Arithmetic::Minus => Ok(with_sign(signed, difference(a, b))),
        Arithmetic::Times => Ok(with_sign(signed, product(a, b))),
        Arithmetic::Quotient => {
            if b == 0 {
                return Err(ZeroDivisor);
            }
            Ok(with_sign(signed, quotient(a, b)))
        }
        Arithmetic::Remainder => {
            if b == 0 {
                return Err(ZeroDivisor);
            }
            Ok(with_sign(signed, remainder(a, b)))
        }
    }
}

/// The number of 64 bits, with a sign or without, that is equal to a number modulo 2^64.
pub fn wrap(signed: bool, n: i128) -> i128
    ensures { result ≡ wrapped signed n }
{
    with_sign(signed, as_signed(n))
}

// A number of 64 bits, read with a sign or without.
#[tactic(auto, unfolding(crate::specs::Values::wrapped))]
fn with_sign(signed: bool, n: i64) -> i128
    ensures { (whole : ℤ) → n ≡ int_wrap w64 whole → result ≡ wrapped signed whole }
{
    if signed {
        n as i128
    } else {
        n.cast_unsigned() as i128
    }
}

// The number of 64 bits with a sign that is equal to a number modulo 2^64.
fn as_signed(n: i128) -> i64
    ensures { result ≡ int_wrap w64 n }
{
    (n.rem_euclid(1 << 64) as u64).cast_signed()
}

fn sum(a: i128, b: i128) -> i64
    ensures { result ≡ int_wrap w64 (a +ℤ b) }
{
    as_signed(a).wrapping_add(as_signed(b))
}

fn difference(a: i128, b: i128) -> i64
    ensures { result ≡ int_wrap w64 (a -ℤ b) }
{
    as_signed(a).wrapping_sub(as_signed(b))
}

fn product(a: i128, b: i128) -> i64
    ensures { result ≡ int_wrap w64 (a *ℤ b) }
{
    as_signed(a).wrapping_mul(as_signed(b))
}

// The quotient by -1 is the difference from 0: a division of 128 bits would not fit for the least number.
fn quotient(a: i128, b: i128) -> i64
    requires some { b ≢ pos 0 }
    ensures { result ≡ int_wrap w64 (int_div a b) }
{
    if b == -1 {
        difference(0, a)
    } else {
        as_signed(a / b)
    }
}

fn remainder(a: i128, b: i128) -> i64
    requires some { b ≢ pos 0 }
    ensures { result ≡ int_wrap w64 (int_rem a b) }
{
    if b == -1 { 0 } else { as_signed(a % b) }
}
