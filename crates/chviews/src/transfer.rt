// Whole reads and writes, over calls that may be short.
ghost use Rattle.std.specs.Prelude.{◌<◌, ◌≤◌, ℕ, length, take, IfOk, OnOk, OnErr};
ghost use Rattle.std.specs.Io.KnownBytes.{Appends, Consumes, IsAtEnd};

use std::io;
use std::io::{ErrorKind, Read, Write};

/// Reads until the buffer is full or nothing is left, and answers how many bytes.
pub fn read_whole<I: Read>(from: &mut I, buf: &mut [u8]) -> io::Result<usize>
    ensures within { IfOk result (λ n. n ≤ length buf.old) }
    ensures read { IfOk result (λ n. Consumes (I.remaining from.old) (I.remaining from.new) (take n buf.new)) }
    ensures end { IfOk result (λ n. n < length buf.old → IsAtEnd (I.remaining from.new)) }
{
    let mut done = 0;
    while done < buf.len() {
        let n = from.read(&mut buf[done..])?;
        if n == 0 {
            return Ok(done);
        }
        done += n;
    }
    Ok(done)
}

/// Writes all bytes. After an `Err` a front of them is written.
pub fn write_whole<W: Write>(to: &mut W, bytes: &[u8]) -> io::Result<()>
    ensures written { OnOk result (Appends (W.contents to.old) (W.contents to.new) bytes.now) }
    ensures err { OnErr result ((k : ℕ) × Appends (W.contents to.old) (W.contents to.new) (take k bytes.now)) }
{
    let mut done = 0;
    while done < bytes.len() {
        let n = to.write(&bytes[done..])?;
        // A writer that takes nothing would be asked for ever.
        if n == 0 {
            return Err(ErrorKind::WriteZero.into());
        }
        done += n;
    }
    Ok(())
}
