// What is said of damage.
ghost use Rattle.std.specs.Prelude.{◌≡◌, ◌++◌, List, decimal, codes, IfOk, OnOk};
ghost use Rattle.chv_engine.specs.DamageLines.{hex_digits, part_of, damage_text, damage_line};

use chv_part::Damage;
use itoa::Buffer;
use std::alloc::{AllocError, Global};

// The digits of numbers in base 16.
const HEX_DIGITS: [u8; 16] = *b"0123456789abcdef";

/// The line that says damage. The name is that of the damaged table, and is not used for the catalog.
pub fn damage_line(alloc: Global, damage: Damage, name: &[u8]) -> Result<Vec<u8>, AllocError>
    ensures { IfOk result (λ line. line.items ≡ damage_line damage name.now) }
{
    let mut line = b"Damaged ".to_vec(alloc)?;
    push_damage(&mut line, damage, name)?;
    line.push(b'\n')?;
    Ok(line)
}

fn push_damage(line: &mut Vec<u8>, damage: Damage, name: &[u8]) -> Result<(), AllocError>
    ensures { OnOk result (line.new.items ≡ line.old.items ++ damage_text damage name.now) }
{
    match damage {
        Damage::Catalog { at } => {
            line.extend_from_slice(b"catalog at ")?;
            push_number(line, at)
        }
        Damage::Log { at, .. } => {
            line.extend_from_slice(b"log of ")?;
            line.extend_from_slice(name)?;
            line.extend_from_slice(b" at ")?;
            push_number(line, at)
        }
        Damage::PartHash {
            part,
            kept,
            found,
            ..
        } => {
            push_part(line, part, name)?;
            line.extend_from_slice(b": kept ")?;
            line.extend_from_slice(&hash_digits(kept))?;
            line.extend_from_slice(b", found ")?;
            line.extend_from_slice(&hash_digits(found))
        }
        Damage::PartShape { part, .. } => {
            push_part(line, part, name)?;
            line.extend_from_slice(b": shape")
        }
    }
}

fn push_part(line: &mut Vec<u8>, part: u64, name: &[u8]) -> Result<(), AllocError>
    ensures { OnOk result (line.new.items ≡ line.old.items ++ part_of part name.now) }
{
    line.extend_from_slice(b"part ")?;
    push_number(line, part)?;
    line.extend_from_slice(b" of ")?;
    line.extend_from_slice(name)
}

fn push_number(line: &mut Vec<u8>, number: u64) -> Result<(), AllocError>
    ensures { OnOk result (line.new.items ≡ line.old.items ++ decimal number) }
{
    line.extend_from_slice(Buffer::new().format(number).as_bytes())
}

// The 16 hexadecimal digits of a hash, the highest first.
fn hash_digits(hash: u64) -> [u8; 16]
    ensures { result ≡ hex_digits 16 hash }
{
    let mut digits = [0; 16];
    let mut left = 16;
    let mut rest = hash;
    while left > 0 {
        left -= 1;
        digits[left] = HEX_DIGITS[(rest % 16) as usize];
        rest /= 16;
    }
    digits
}
