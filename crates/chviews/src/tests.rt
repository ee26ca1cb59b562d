// What no clause shows: that the calls reach the system, whole.
ghost use Rattle.std.specs.Prelude.{◌≤◌, IfOk};

use crate::file_place::FilePlace;
use crate::folder_site::FolderSite;
use crate::std_source::StdSource;
use crate::transfer::{read_whole, write_whole};
use chv_site::{FileId, Site, Source};
use std::cell::Cell;
use std::os::unix::fs::FileExt;
use std::rt::{Env, Files};
use std::test::Fail;
use std::{env, fs, io};

// The working folder of one test, which is left empty of what the test made.
const HOME: &str = "chviews-test";

pub fn enter<R: Files + Env + AllocGlobal>(rt: &R) -> io::Result<()> {
    let _ = fs::remove_dir_all(rt, HOME);
    fs::create_dir(rt, HOME)?;
    env::set_current_dir(rt, HOME)
}

pub fn leave<R: Files + Env + AllocGlobal>(rt: &R) -> io::Result<()> {
    env::set_current_dir(rt, "..")?;
    fs::remove_dir_all(rt, HOME)
}

#[test]
fn a_folder_gives_back_what_was_put(rt: HostRuntime) -> Result<(), Fail> {
    enter(&rt)?;
    let mut site = FolderSite::new(&rt);
    let part = FileId::part(12, 8);
    site.put(part, 0, b"abcdef")?;
    site.put(part, 4, b"EFG")?;
    site.cut(part, 6)?;
    site.sync(part)?;
    let mut buf = [0u8; 8];
    assert_eq!(rt; site.fetch(part, 3, &mut buf)?, 3);
    assert_eq!(rt; buf.as_slice(), b"dEF\0\0\0\0\0".as_slice());
    let stored = fs::read(&rt, "chviews-data/t12-p8.bin")?;
    assert_eq!(rt; stored.as_slice(), b"abcdEF".as_slice());
    site.discard(part)?;
    assert!(rt; !fs::exists(&rt, "chviews-data/t12-p8.bin")?);
    site.say(b"")?;
    Ok(leave(&rt)?)
}

#[test]
fn an_absent_file_is_an_empty_one(rt: HostRuntime) -> Result<(), Fail> {
    enter(&rt)?;
    let mut site = FolderSite::new(&rt);
    let log = FileId::table_log(1);
    assert_eq!(rt; site.size(log)?, 0);
    assert_eq!(rt; site.fetch(log, u64::MAX, &mut [0])?, 0);
    site.cut(log, 0)?;
    site.sync(log)?;
    site.discard(log)?;
    // A file in the folder's place is a fault.
    fs::write(&rt, "chviews-data", "")?;
    assert!(rt; site.size(log).is_err());
    assert!(rt; site.put(log, 0, b"a").is_err());
    Ok(leave(&rt)?)
}

#[test]
fn a_source_gives_a_file_and_then_its_end(rt: HostRuntime) -> Result<(), Fail> {
    enter(&rt)?;
    fs::write(&rt, "script", "abcde")?;
    let mut source = StdSource::new(fs::open(&rt, "script")?);
    let mut buf = [0u8; 4];
    assert_eq!(rt; source.pull(&mut buf)?, 4);
    assert_eq!(rt; buf.as_slice(), b"abcd".as_slice());
    assert_eq!(rt; source.pull(&mut buf)?, 1);
    assert_eq!(rt; source.pull(&mut buf)?, 0);
    // A folder opens, but gives no bytes.
    let mut folder = StdSource::new(fs::open(&rt, ".")?);
    assert!(rt; folder.pull(&mut buf).is_err());
    Ok(leave(&rt)?)
}

// A file that moves three bytes at a call, forward from one place, and none behind the tenth.
#[derive(Drop)]
struct Short {
    moved: Cell<u64>,
}

impl Short {
    fn new() -> Short {
        Short {
            moved: Cell::new(0),
        }
    }

    fn step(&self, len: usize, offset: u64) -> io::Result<usize>
        ensures { IfOk result (λ n. n ≤ len) }
    {
        let moved = self.moved.get();
        if offset != moved {
            return Err(io::ErrorKind::InvalidInput.into());
        }
        let n = len.min(3).min(10u64.saturating_sub(moved) as usize);
        self.moved.set(moved.saturating_add(n as u64));
        Ok(n)
    }
}

impl FileExt for Short {
    fn read_at(&self, buf: &mut [u8], offset: u64) -> io::Result<usize> {
        self.step(buf.len(), offset)
    }

    fn write_at(&self, buf: &[u8], offset: u64) -> io::Result<usize> {
        self.step(buf.len(), offset)
    }
}

#[test]
fn short_reads_and_writes_go_on_at_the_next_place(rt: HostRuntime) -> Result<(), Fail> {
    let mut buf = [0u8; 16];
    let file = Short::new();
    assert_eq!(rt; read_whole(&mut FilePlace::new(&file, 0), &mut buf)?, 10);
    let file = Short::new();
    write_whole(&mut FilePlace::new(&file, 0), &buf[..10])?;
    assert_eq!(rt; file.moved.get(), 10);
    Ok(())
}
