// The real site.
ghost use Rattle.std.specs.Prelude.{◌≡◌, []};
ghost use Rattle.std.proofs.Common.{refl};
ghost use Rattle.chv_site.specs.Laws.{settled_lengths};
ghost use Rattle.chviews.specs.Untold.{untold};

use crate::count::counted;
use crate::folder::Folder;
use crate::store_file::StoreFile;
use crate::transfer::write_whole;
use chv_site::{Failed, FileId, Site};
use std::io;
use std::rt::Files;

/// The files of the folder `chviews-data`, and standard output as the console.
/// What they hold is told by nothing.
#[derive(Drop)]
pub struct FolderSite<'a, R: Files> {
    rt: &'a R,
    folder: Folder<'a, R>,
    disk_faults: u64,
    say_faults: u64,
}

impl<'a, R: Files + Print + AllocGlobal> FolderSite<'a, R>
where
    R::File: StoreFile,
{
    pub fn new(rt: &'a R) -> FolderSite<'a, R>
        ensures disk_faults { result.disk_faults ≡ 0 }
        ensures say_faults { result.say_faults ≡ 0 }
    {
        FolderSite {
            rt,
            folder: Folder::new(rt),
            disk_faults: 0,
            say_faults: 0,
        }
    }

    /// Whether a call failed since another run has the store open.
    pub fn is_taken(&self) -> bool {
        self.folder.is_taken()
    }
}

impl<'a, R: Files + Print + AllocGlobal> Site for FolderSite<'a, R>
where
    R::File: StoreFile,
{
    // No contract of std says what a file of the system holds, so nothing is claimed of it here.
    ghost tells = { ⊥ };

    ghost outside = { λ s. untold s.disk_faults s.say_faults };

    fn size(&mut self, f: FileId) -> Result<u64, Failed> {
        let answer = self.folder.size(f);
        counted(&mut self.disk_faults, answer)
    }

    fn fetch(&mut self, f: FileId, at: u64, buf: &mut [u8]) -> Result<usize, Failed> {
        let answer = self.folder.read(f, at, buf);
        counted(&mut self.disk_faults, answer)
    }

    fn put(&mut self, f: FileId, at: u64, bytes: &[u8]) -> Result<(), Failed> {
        let answer = self.folder.write(f, at, bytes);
        counted(&mut self.disk_faults, answer)
    }

    fn cut(&mut self, f: FileId, len: u64) -> Result<(), Failed> {
        let answer = self.folder.truncate(f, len);
        counted(&mut self.disk_faults, answer)
    }

    fn sync(&mut self, f: FileId) -> Result<(), Failed> {
        let answer = self.folder.sync(f);
        counted(&mut self.disk_faults, answer)
    }

    fn discard(&mut self, f: FileId) -> Result<(), Failed> {
        let answer = self.folder.remove(f);
        counted(&mut self.disk_faults, answer)
    }

    fn say(&mut self, bytes: &[u8]) -> Result<(), Failed> {
        let answer = write_whole(&mut io::writer(self.rt), bytes);
        counted(&mut self.say_faults, answer)
    }

    ghost counts_now = { λ _ _ _ _ is_image. (is_image, refl) };

    ghost only_now = { λ _ _ _ left. left };

    ghost reads = { λ _ _. settled_lengths [] };
}
