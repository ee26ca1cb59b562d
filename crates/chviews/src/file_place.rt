// A place in a file.
use std::io;
use std::io::{Read, Write};
use std::os::unix::fs::FileExt;

/// The greatest length of a file.
const MAX_LEN: u64 = (1 << 63) - 1;

/// A file from a place on, which moves on by what is read or written.
#[derive(Drop)]
pub struct FilePlace<'f, F> {
    file: &'f F,
    place: u64,
}

impl<'f, F: FileExt> FilePlace<'f, F> {
    pub fn new(file: &'f F, place: u64) -> FilePlace<'f, F> {
        FilePlace { file, place }
    }
}

impl<F: FileExt> Read for FilePlace<'_, F> {
    fn read(&mut self, buf: &mut [u8]) -> io::Result<usize> {
        // The system would refuse such a place, behind which no file goes on.
        if self.place > MAX_LEN {
            return Ok(0);
        }
        let n = self.file.read_at(buf, self.place)?;
        self.place += n as u64;
        Ok(n)
    }
}

impl<F: FileExt> Write for FilePlace<'_, F> {
    fn write(&mut self, buf: &[u8]) -> io::Result<usize> {
        let n = self.file.write_at(buf, self.place)?;
        self.place = self.place.saturating_add(n as u64);
        Ok(n)
    }

    fn flush(&mut self) -> io::Result<()> {
        Ok(())
    }
}
