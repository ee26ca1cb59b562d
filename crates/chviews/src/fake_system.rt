// The system with words, a script, a lock and a console that a test tells, which notes what is asked of its files.
ghost use Rattle.std.specs.Prelude.{◌≡◌, ◌+◌, IfOk, string_len};

use crate::store_file::StoreFile;
use std::alloc::{Allocator, Global};
use std::cell::{Cell, RefCell};
use std::env::FillError;
use std::fmt::Display;
use std::fs::{File, Metadata, OpenFile, OpenOptions};
use std::io;
use std::io::{BufRead, Empty, ErrorKind, Lines, Read, Seek, SeekFrom, Write};
use std::os::unix::fs::FileExt;
use std::rt::{Env, Files};

/// What is told of the lock of the working folder.
#[derive(Clone, Copy, PartialEq, Eq)]
pub enum Locking {
    AsIs,
    IsTaken,
    Fails,
}

/// What a test tells the system.
#[derive(Clone, Copy)]
pub struct Told {
    /// The words behind the program's name.
    pub words: &'static [&'static [u8]],
    /// None where standard input is closed.
    pub script: Option<&'static [u8]>,
    pub locking: Locking,
    /// Whether files that are opened have the numbers of standard streams.
    pub are_streams: bool,
    /// The say with this number fails; 0 for none.
    pub failing_say: u64,
}

/// The word `run`, an empty script, and nothing that fails.
pub const QUIET: Told = Told {
    words: &[b"run"],
    script: Some(b""),
    locking: Locking::AsIs,
    are_streams: false,
    failing_say: 0,
};

/// What a test hears of the program: its calls on files, and what it said on both streams.
#[derive(Drop)]
pub struct Heard {
    pub calls: RefCell<String>,
    pub said: RefCell<String>,
    pub complained: RefCell<String>,
    says: Cell<u64>,
}

impl Heard {
    pub fn new(alloc: Global) -> Heard {
        Heard {
            calls: RefCell::new(String::new(alloc)),
            said: RefCell::new(String::new(alloc)),
            complained: RefCell::new(String::new(alloc)),
            says: Cell::new(0),
        }
    }

    fn note(&self, call: &str, what: &str) {
        append(&self.calls, call);
        append(&self.calls, what);
        append(&self.calls, ", ");
    }
}

fn append(to: &RefCell<String>, text: &str) {
    if let Ok(mut held) = to.try_borrow_mut() {
        let _ = held.push_str(text);
    }
}

/// Whether a text was heard, and no more.
pub fn is_text(heard: &RefCell<String>, text: &str) -> bool {
    match heard.try_borrow() {
        Ok(held) => held.as_str() == text,
        Err(_) => false,
    }
}

#[derive(Clone, Copy)]
pub struct FakeSystem<'a> {
    pub rt: HostRuntime,
    pub told: Told,
    pub heard: &'a Heard,
}

fn unsupported() -> io::Error {
    ErrorKind::Unsupported.into()
}

impl Alloc for FakeSystem<'_> {
    type A = Global;

    fn alloc(&self) -> Global {
        self.rt.alloc()
    }
}

impl Env for FakeSystem<'_> {
    fn arg(&self, i: usize, buf: &mut [u8]) -> Result<usize, FillError> {
        if i == 0 {
            return Ok(0);
        }
        let Some(word) = self.told.words.get(i - 1) else {
            return Err(FillError::NotPresent);
        };
        if word.len() > buf.len() {
            return Err(FillError::TooLong);
        }
        buf[..word.len()].copy_from_slice(word);
        Ok(word.len())
    }

    fn var(&self, _name: &str, _buf: &mut [u8]) -> Result<usize, FillError> {
        Err(FillError::NotPresent)
    }

    fn var_at(&self, _i: usize, _buf: &mut [u8]) -> Result<usize, FillError> {
        Err(FillError::NotPresent)
    }
}

#[derive(Drop)]
pub struct Script {
    rest: Option<&'static [u8]>,
}

impl Read for Script {
    fn read(&mut self, buf: &mut [u8]) -> io::Result<usize> {
        match &mut self.rest {
            Some(rest) => rest.read(buf),
            None => Err(unsupported()),
        }
    }
}

impl BufRead for Script {
    fn fill_buf(&mut self) -> io::Result<&[u8]> {
        Err(unsupported())
    }

    fn consume(&mut self, _amount: usize) {}
}

impl Input for FakeSystem<'_> {
    type Reader = Script;

    fn read_line<A: Allocator + Clone>(&self, buf: &mut String<A>) -> io::Result<usize>
        ensures ok { IfOk result (λ n. string_len buf.new ≡ string_len buf.old + n) }
    {
        self.reader().read_line(buf)
    }

    fn lines<A: Allocator>(&self, alloc: A) -> Lines<Script, A> {
        self.reader().lines(alloc)
    }

    fn reader(&self) -> Script {
        Script {
            rest: self.told.script,
        }
    }
}

impl Print for FakeSystem<'_> {
    fn print<D: Display + Drop>(&self, _value: D) -> io::Result<()> {
        Err(unsupported())
    }

    fn println<D: Display + Drop>(&self, _value: D) -> io::Result<()> {
        Err(unsupported())
    }

    fn write_all(&self, bytes: &[u8]) -> io::Result<()> {
        let says = self.heard.says.get().saturating_add(1);
        self.heard.says.set(says);
        if says == self.told.failing_say {
            return Err(ErrorKind::BrokenPipe.into());
        }
        match str::from_utf8(bytes) {
            Ok(text) => append(&self.heard.said, text),
            Err(_) => return Err(unsupported()),
        }
        Ok(())
    }
}

impl Eprint for FakeSystem<'_> {
    fn eprint<D: Display + Drop>(&self, value: D) -> io::Result<()> {
        let text = format!(in self.rt.alloc(); "{value}")?;
        append(&self.heard.complained, text.as_str());
        Ok(())
    }

    fn eprintln<D: Display + Drop>(&self, value: D) -> io::Result<()> {
        self.eprint(value)?;
        append(&self.heard.complained, "\n");
        Ok(())
    }
}

/// An open file of the system, and what its path names.
#[derive(Drop)]
pub struct FakeFile<'a> {
    file: File,
    what: &'static str,
    told: Told,
    heard: &'a Heard,
}

impl<'a> Files for FakeSystem<'a> {
    type File = FakeFile<'a>;

    type Dir = Empty;

    fn open_file(&self, how: &OpenOptions, path: &str) -> io::Result<FakeFile<'a>> {
        let what = match path {
            "." => "around",
            "chviews-data" => "folder",
            _ => "file",
        };
        let file = self.rt.open_file(how, path)?;
        self.heard.note("open ", what);
        Ok(FakeFile {
            file,
            what,
            told: self.told,
            heard: self.heard,
        })
    }

    fn open_dir(&self, _path: &str) -> io::Result<Empty> {
        Err(unsupported())
    }

    fn metadata(&self, path: &str) -> io::Result<Metadata> {
        Files::metadata(&self.rt, path)
    }

    fn symlink_metadata(&self, _path: &str) -> io::Result<Metadata> {
        Err(unsupported())
    }

    fn copy(&self, _from: &str, _to: &str) -> io::Result<u64> {
        Err(unsupported())
    }

    fn rename(&self, _from: &str, _to: &str) -> io::Result<()> {
        Err(unsupported())
    }

    fn remove_file(&self, path: &str) -> io::Result<()> {
        self.rt.remove_file(path)?;
        self.heard.note("remove ", "file");
        Ok(())
    }

    fn create_dir(&self, path: &str) -> io::Result<()> {
        self.rt.create_dir(path)?;
        self.heard.note("make ", "folder");
        Ok(())
    }

    fn remove_dir(&self, _path: &str) -> io::Result<()> {
        Err(unsupported())
    }

    fn remove_dir_all<B: Allocator>(&self, _alloc: B, _path: &str) -> io::Result<()> {
        Err(unsupported())
    }
}

impl Read for FakeFile<'_> {
    fn read(&mut self, _buf: &mut [u8]) -> io::Result<usize> {
        Err(unsupported())
    }
}

impl Write for FakeFile<'_> {
    fn write(&mut self, _buf: &[u8]) -> io::Result<usize> {
        Err(unsupported())
    }

    fn flush(&mut self) -> io::Result<()> {
        Ok(())
    }
}

impl Seek for FakeFile<'_> {
    fn seek(&mut self, _to: SeekFrom) -> io::Result<u64> {
        Err(unsupported())
    }
}

impl OpenFile for FakeFile<'_> {
    fn metadata(&self) -> io::Result<Metadata> {
        Err(unsupported())
    }

    fn set_len(&self, size: u64) -> io::Result<()> {
        self.heard.note("cut ", self.what);
        self.file.set_len(size)
    }

    fn sync_all(&self) -> io::Result<()> {
        self.heard.note("sync all of ", self.what);
        self.file.sync_all()
    }

    fn sync_data(&self) -> io::Result<()> {
        self.heard.note("sync data of ", self.what);
        self.file.sync_data()
    }
}

impl FileExt for FakeFile<'_> {
    fn read_at(&self, buf: &mut [u8], offset: u64) -> io::Result<usize> {
        self.file.read_at(buf, offset)
    }

    fn write_at(&self, buf: &[u8], offset: u64) -> io::Result<usize> {
        self.heard.note("write ", self.what);
        self.file.write_at(buf, offset)
    }
}

impl StoreFile for FakeFile<'_> {
    fn take_lock(&self) -> io::Result<bool> {
        self.heard.note("lock ", self.what);
        match self.told.locking {
            Locking::AsIs => self.file.take_lock(),
            Locking::IsTaken => Ok(false),
            Locking::Fails => Err(unsupported()),
        }
    }

    fn is_stream(&self) -> bool {
        self.told.are_streams
    }
}
