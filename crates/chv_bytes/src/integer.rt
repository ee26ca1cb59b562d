// Integers of eight kinds.
ghost use Rattle.std.specs.Prelude.{◌≡◌, ◌≤◌, ◌<◌, ◌+◌, ◌++◌, ◌↔◌, length, take, drop, IfSome, IsNone, OnOk, OnErr};
ghost use Rattle.chv_bytes.specs.Integers.{form_of, width_of, InRange, int_bytes, int_value};
ghost use Rattle.chv_bytes.specs.Places.{StandsAt};

use byteorder::{ByteOrder, LittleEndian};
use std::alloc::AllocError;

/// The kinds of integers: unsigned and signed, of 1, 2, 4 and 8 bytes.
#[derive(Clone, Copy, Debug, PartialEq, Eq)]
pub enum IntKind {
    U8,
    U16,
    U32,
    U64,
    I8,
    I16,
    I32,
    I64,
}

impl IntKind {
    // How many bytes an integer of the kind has.
    fn width(self) -> usize
        ensures width { result ≡ width_of self }
        ensures range { (1 ≤ result) × (result ≤ 8) }
    {
        match self {
            IntKind::U8 | IntKind::I8 => 1,
            IntKind::U16 | IntKind::I16 => 2,
            IntKind::U32 | IntKind::I32 => 4,
            IntKind::U64 | IntKind::I64 => 8,
        }
    }

    // Whether the kind has numbers below zero.
    fn is_signed(self) -> bool
        ensures { result ≡ (form_of self).signed }
    {
        match self {
            IntKind::U8 | IntKind::U16 | IntKind::U32 | IntKind::U64 => false,
            IntKind::I8 | IntKind::I16 | IntKind::I32 | IntKind::I64 => true,
        }
    }
}

/// Puts an integer of a kind behind `out`: its width in bytes, in two's complement where the kind is signed.
pub fn put_int(out: &mut Vec<u8>, kind: IntKind, v: i128) -> Result<(), AllocError>
    requires { InRange kind v }
    ensures put { OnOk result (out.new.items ≡ out.old.items ++ int_bytes kind v) }
    ensures err { OnErr result (out.new.items ≡ out.old.items) }
{
    let bytes = padded(kind, v);
    out.extend_from_slice(&bytes[..kind.width()])
}

// The bytes of an integer, with zeros behind them.
fn padded(kind: IntKind, v: i128) -> [u8; 8]
    requires { InRange kind v }
    ensures { take (width_of kind) result ≡ int_bytes kind v }
{
    let mut bytes = [0u8; 8];
    LittleEndian::write_int128(&mut bytes, v, kind.width());
    bytes
}

/// The integer of a kind whose bytes begin at `at`, and the place behind it. None where fewer bytes are left than the
/// kind has.
pub fn read_int(bytes: &[u8], at: usize, kind: IntKind) -> Option<(i128, usize)>
    ensures value { IfSome result (λ r. r.0 ≡ int_value kind (drop at bytes.now)) }
    ensures range { IfSome result (λ r. InRange kind r.0) }
    ensures found { IfSome result (λ r. StandsAt (int_bytes kind r.0) bytes.now at r.1) }
    ensures none { IsNone result ↔ (length bytes.now < at + width_of kind) }
{
    let width = kind.width();
    if at > bytes.len() || bytes.len() - at < width {
        return None;
    }
    Some((first_int(&bytes[at..], kind), at + width))
}

// The integer of a kind that the first bytes are.
fn first_int(bytes: &[u8], kind: IntKind) -> i128
    requires { width_of kind ≤ length bytes.now }
    ensures value { result ≡ int_value kind bytes.now }
    ensures range { InRange kind result }
    ensures bytes { int_bytes kind result ≡ take (width_of kind) bytes.now }
{
    let width = kind.width();
    if kind.is_signed() {
        LittleEndian::read_int128(bytes, width)
    } else {
        i128::from(LittleEndian::read_uint(bytes, width))
    }
}
