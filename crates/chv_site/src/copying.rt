// Bytes from one place to another.
ghost use Rattle.std.specs.Prelude.{◌≡◌, ◌⊎◌, ◌<◌, ◌≤◌, ℕ, slice_index, length, take, min, OnOk, OnErr};
ghost use Rattle.chv_site.specs.Crash.{IsTouched};
ghost use Rattle.chv_site.specs.Files.{over_written, IsUntouched};

use std::alloc::AllocError;

/// Copies as many bytes as both have to the front of a buffer, and answers how many.
pub fn copy_front(bytes: &[u8], buf: &mut [u8]) -> usize
    ensures count { result ≡ min (length buf.old) (length bytes.now) }
    ensures bytes { take result buf.new ≡ take result bytes.now }
{
    let count = buf.len().min(bytes.len());
    buf[..count].copy_from_slice(&bytes[..count]);
    count
}

/// Writes bytes into a file at a place, over what is there and past the end.
pub fn over_write(file: &mut Vec<u8>, at: usize, bytes: &[u8]) -> Result<(), AllocError>
    requires { at ≤ length file.old.items }
    ensures written { OnOk result (file.new.items ≡ over_written at bytes.now file.old.items) }
    ensures err { OnErr result (file.new.items ≡ file.old.items) }
{
    let over = bytes.len().min(file.len() - at);
    file.extend_from_slice(&bytes[over..])?;
    file[at..at + over].copy_from_slice(&bytes[..over]);
    Ok(())
}

/// Sets the bytes from one place up to another, as far as there are any.
pub fn fill(bytes: &mut [u8], from: usize, to: usize, byte: u8)
    ensures length { length bytes.new ≡ length bytes.old }
    ensures inside { (place : ℕ) → from ≤ place → place < to → place < length bytes.old → slice_index bytes.new place ≡ byte }
    ensures either { (place : ℕ) → slice_index bytes.old place ≡ byte → slice_index bytes.new place ≡ byte }
    ensures outside { (place : ℕ) → (place < from) ⊎ (to ≤ place) → slice_index bytes.new place ≡ slice_index bytes.old place }
{
    let end = to.min(bytes.len());
    for place in from..end {
        bytes[place] = byte;
    }
}

/// Sets the bytes in these ranges, as far as there are any.
pub fn fill_all(bytes: &mut [u8], ranges: &[(usize, usize)], byte: u8)
    ensures length { length bytes.new ≡ length bytes.old }
    ensures touched { (place : ℕ) → place < length bytes.old → IsTouched ranges.now place → slice_index bytes.new place ≡ byte }
    ensures untouched { (place : ℕ) → IsUntouched ranges.now place → slice_index bytes.new place ≡ slice_index bytes.old place }
    ensures either { (place : ℕ) → slice_index bytes.old place ≡ byte → slice_index bytes.new place ≡ byte }
{
    for range in ranges {
        fill(bytes, range.0, range.1, byte);
    }
}
