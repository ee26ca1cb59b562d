// Numbers of a fixed width.
ghost use Rattle.std.specs.Prelude.{◌≡◌, ◌≤◌, ◌<◌, ◌+◌, ◌^◌, ◌↔◌, length, IfSome, IsNone};
ghost use Rattle.byteorder.specs.Endian.{little_bytes, little_number};
ghost use Rattle.chv_bytes.specs.Places.{StandsAt};

use byteorder::{ByteOrder, LittleEndian};

/// A number of `W` bytes, the low byte first. `W` is from 1 to 8.
#[derive(Clone, Copy, Debug, PartialEq, Eq)]
pub struct Fixed<const W: usize> {
    pub bytes: [u8; W],
}

/// A number in `W` bytes.
pub fn fix<const W: usize>(v: u64) -> Fixed<W>
    requires width { (1 ≤ W) × (W ≤ 8) }
    requires fits { v < 256 ^ W }
    ensures { result.bytes ≡ little_bytes W v }
{
    let mut bytes = [0u8; W];
    LittleEndian::write_uint(&mut bytes, v, W);
    Fixed { bytes }
}

/// The number that `W` bytes are.
pub fn unfix<const W: usize>(f: &Fixed<W>) -> u64
    requires width { (1 ≤ W) × (W ≤ 8) }
    ensures value { result ≡ little_number W f.now.bytes }
    ensures bytes { f.now.bytes ≡ little_bytes W result }
    ensures fits { result < 256 ^ W }
{
    number_in(&f.bytes)
}

// The number that 1 to 8 bytes are.
fn number_in(bytes: &[u8]) -> u64
    requires width { (1 ≤ length bytes.now) × (length bytes.now ≤ 8) }
    ensures value { result ≡ little_number (length bytes.now) bytes.now }
    ensures bytes { bytes.now ≡ little_bytes (length bytes.now) result }
    ensures fits { result < 256 ^ length bytes.now }
{
    LittleEndian::read_uint(bytes, bytes.len())
}

/// The number whose bytes begin at `at`, and the place behind it. None where fewer than `W` bytes are left.
pub fn read_fixed<const W: usize>(bytes: &[u8], at: usize) -> Option<(Fixed<W>, usize)>
    ensures found { IfSome result (λ r. StandsAt r.0.bytes bytes.now at r.1) }
    ensures none { IsNone result ↔ (length bytes.now < at + W) }
{
    if at > bytes.len() || bytes.len() - at < W {
        return None;
    }
    let mut number = [0u8; W];
    number.copy_from_slice(&bytes[at..at + W]);
    Some((Fixed { bytes: number }, at + W))
}
