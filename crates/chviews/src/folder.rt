// The store's files in a folder of the system.
ghost use Rattle.std.specs.Prelude.{◌≡◌, ◌≢◌, ◌≤◌, true, false, None, Some, Ok, Err, length, IsSome, IfOk, IfErr, OnOk};
ghost use Rattle.std.specs.IoError.{error_kind};
ghost use Rattle.std.specs.String.{string_bytes};
ghost use Rattle.chviews.specs.Paths.{path_of};

use crate::file_place::FilePlace;
use crate::store_file::{Lock, StoreFile};
use crate::transfer::{read_whole, write_whole};
use chv_site::FileId;
use std::alloc::{AllocError, Global};
use std::fs::{OpenFile, OpenOptions};
use std::io::ErrorKind;
use std::rt::Files;
use std::{fs, io};

/// The folder's path from the working folder on.
const FOLDER: &str = "chviews-data";

/// The path of a file from the working folder on.
fn path(alloc: Global, f: FileId) -> Result<String, AllocError>
    ensures { IfOk result (λ s. string_bytes s ≡ path_of f) }
{
    let FileId { table, part } = f;
    format!(in alloc; "chviews-data/t{table}-p{part}.bin")
}

/// Takes it for an answer that something is absent.
fn unless_absent<T>(answer: io::Result<T>) -> io::Result<Option<T>>
    ensures there { IfOk answer (λ x. result ≡ Ok (Some x)) }
    ensures absent { IfErr answer (λ e. error_kind e ≡ ErrorKind.NotFound → result ≡ Ok None) }
    ensures err { IfErr answer (λ e. error_kind e ≢ ErrorKind.NotFound → result ≡ Err e) }
{
    match answer {
        Ok(x) => Ok(Some(x)),
        Err(e) if e.kind() == ErrorKind::NotFound => Ok(None),
        Err(e) => Err(e),
    }
}

/// Syncs the names that a folder has, where the folder is there.
fn sync_names<R: Files>(rt: &R, folder: &str) -> io::Result<()> {
    match unless_absent(fs::open(rt, folder))? {
        Some(names) => names.sync_all(),
        None => Ok(()),
    }
}

/// A file that stays open from a put or a cut to its sync, so that the sync tells an error of writing
/// back that the system met in between.
#[derive(Drop)]
struct Kept<F> {
    id: FileId,
    file: F,
}

/// The folder `chviews-data` of the working folder, which is made with the first file.
///
/// Of its files the one that was changed last may be open between two calls. Where a standard stream is
/// closed, a file that is opened gets its number, and replies would go into the file; so such a file is
/// closed behind each call. The lock is no such danger, since its folder is open for reading alone.
#[derive(Drop)]
pub struct Folder<'a, R: Files> {
    rt: &'a R,
    /// The lock of the working folder, which is always there. It keeps other runs out from the first
    /// call on: two that append to one log would write over each other's frames.
    lock: Option<Lock<R::File>>,
    is_taken: bool,
    kept: Option<Kept<R::File>>,
    /// Whether the disk has the folder's own name, and the names in the folder. At first neither is
    /// known, since an earlier run may have been stopped before its sync.
    is_synced: bool,
    names_are_synced: bool,
}

impl<'a, R: Files + AllocGlobal> Folder<'a, R>
where
    R::File: StoreFile,
{
    pub fn new(rt: &'a R) -> Folder<'a, R> {
        Folder {
            rt,
            lock: None,
            is_taken: false,
            kept: None,
            is_synced: false,
            names_are_synced: false,
        }
    }

    /// Whether a call found that another run has the lock.
    pub fn is_taken(&self) -> bool
        ensures { result ≡ self.now.is_taken }
    {
        self.is_taken
    }

    /// Takes the lock, where no call before has.
    fn hold(&mut self) -> io::Result<()>
        ensures { OnOk result (IsSome self.new.lock) }
    {
        if self.lock.is_some() {
            return Ok(());
        }
        match Lock::take(fs::open(self.rt, ".")?)? {
            Some(lock) => {
                self.lock = Some(lock);
                Ok(())
            }
            None => {
                self.is_taken = true;
                Err(ErrorKind::WouldBlock.into())
            }
        }
    }

    /// Opens a file, where it is there.
    fn open(&self, f: FileId, how: &OpenOptions) -> io::Result<Option<R::File>> {
        unless_absent(how.open(self.rt, path(self.rt.alloc(), f)?.as_str()))
    }

    /// Makes a file, and the folder where it is absent.
    fn make(&mut self, f: FileId) -> io::Result<R::File>
        ensures names { OnOk result (self.new.names_are_synced ≡ false) }
        ensures held { self.new.lock ≡ self.old.lock }
    {
        match fs::create_dir(self.rt, FOLDER) {
            Ok(()) => self.is_synced = false,
            Err(e) if e.kind() == ErrorKind::AlreadyExists => {}
            Err(e) => return Err(e),
        }
        // Before the call, since one that fails may have made the name.
        self.names_are_synced = false;
        OpenOptions::new()
            .write(true)
            .create(true)
            .open(self.rt, path(self.rt.alloc(), f)?.as_str())
    }

    /// The file that was kept, where it is this one. No file is kept then.
    fn kept(&mut self, f: FileId) -> Option<R::File>
        ensures held { self.new.lock ≡ self.old.lock }
    {
        match self.kept.take() {
            Some(Kept { id, file }) if id == f => Some(file),
            _ => None,
        }
    }

    /// A file that is open for writing, where it is there.
    fn writable(&mut self, f: FileId) -> io::Result<Option<R::File>>
        ensures held { self.new.lock ≡ self.old.lock }
    {
        match self.kept(f) {
            Some(file) => Ok(Some(file)),
            None => self.open(f, OpenOptions::new().write(true)),
        }
    }

    fn keep(&mut self, id: FileId, file: R::File)
        ensures held { self.new.lock ≡ self.old.lock }
    {
        if !file.is_stream() {
            self.kept = Some(Kept { id, file });
        }
    }

    pub fn size(&mut self, f: FileId) -> io::Result<u64>
        ensures held { OnOk result (IsSome self.new.lock) }
    {
        self.hold()?;
        let path = path(self.rt.alloc(), f)?;
        match unless_absent(fs::metadata(self.rt, path.as_str()))? {
            Some(found) => Ok(found.len()),
            None => Ok(0),
        }
    }

    pub fn read(&mut self, f: FileId, at: u64, buf: &mut [u8]) -> io::Result<usize>
        ensures within { IfOk result (λ n. n ≤ length buf.old) }
        ensures held { OnOk result (IsSome self.new.lock) }
    {
        self.hold()?;
        // The file that is kept is open for writing alone.
        match self.open(f, OpenOptions::new().read(true))? {
            Some(file) => read_whole(&mut FilePlace::new(&file, at), buf),
            None => Ok(0),
        }
    }

    pub fn write(&mut self, f: FileId, at: u64, bytes: &[u8]) -> io::Result<()>
        ensures held { OnOk result (IsSome self.new.lock) }
    {
        self.hold()?;
        let file = match self.writable(f)? {
            Some(file) => file,
            None => self.make(f)?,
        };
        let answer = write_whole(&mut FilePlace::new(&file, at), bytes);
        self.keep(f, file);
        answer
    }

    pub fn truncate(&mut self, f: FileId, len: u64) -> io::Result<()>
        ensures held { OnOk result (IsSome self.new.lock) }
    {
        self.hold()?;
        let Some(file) = self.writable(f)? else {
            return Ok(());
        };
        let answer = file.set_len(len);
        self.keep(f, file);
        answer
    }

    pub fn remove(&mut self, f: FileId) -> io::Result<()>
        ensures names { OnOk result (self.new.names_are_synced ≡ false) }
        ensures held { OnOk result (IsSome self.new.lock) }
    {
        self.hold()?;
        self.kept = None;
        let path = path(self.rt.alloc(), f)?;
        self.names_are_synced = false;
        unless_absent(fs::remove_file(self.rt, path.as_str()))?;
        Ok(())
    }

    /// Syncs a file, and then the names by which it is found again: a crash loses those that were made
    /// since the last sync of their folder.
    pub fn sync(&mut self, f: FileId) -> io::Result<()>
        ensures names { OnOk result (self.new.names_are_synced ≡ true) }
        ensures folder { OnOk result (self.new.is_synced ≡ true) }
        ensures held { OnOk result (IsSome self.new.lock) }
    {
        self.hold()?;
        let file = match self.kept(f) {
            Some(file) => Some(file),
            None => self.open(f, OpenOptions::new().read(true))?,
        };
        if let Some(file) = file {
            file.sync_data()?;
        }
        if !self.names_are_synced {
            sync_names(self.rt, FOLDER)?;
            self.names_are_synced = true;
        }
        if !self.is_synced {
            sync_names(self.rt, ".")?;
            self.is_synced = true;
        }
        Ok(())
    }
}
