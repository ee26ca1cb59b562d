// Files in memory, by their names.
ghost use Rattle.std.specs.Prelude.{◌≡◌, cond, IfOk, OnOk, OnErr};
ghost use Rattle.std.specs.declared.option.Option.TheVariants.{None};
ghost use Rattle.std.specs.BTreeMap.{get, keys};
ghost use Rattle.chv_site.specs.declared.file_id.FileId.{FileId};
ghost use Rattle.chv_site.specs.Images.{HasLengths};
ghost use Rattle.chv_site.specs.Crash.{IsPicked};
ghost use Rattle.chv_site.specs.Calls.{fresh, id_cmp, is_file, after_act, IsPossible};
ghost use Rattle.chv_site.specs.FileStore.{kept_of};

use crate::FileId;
use crate::call::Act;
use crate::mem_file::MemFile;
use crate::pick::Pick;
use std::alloc::{AllocError, Global};
use std::collections::BTreeMap;

/// Files in memory. An absent one is empty.
#[derive(Drop)]
pub struct FileStore {
    alloc: Global,
    by_id: BTreeMap<FileId, MemFile>,
}

impl FileStore {
    /// No files.
    pub fn new(alloc: Global) -> FileStore
        ensures { (g : FileId) → kept_of result g ≡ fresh }
    {
        FileStore {
            alloc,
            by_id: BTreeMap::new(alloc),
        }
    }

    /// The bytes of a file.
    pub fn read(&self, f: FileId) -> &[u8]
        ensures { result.now ≡ (kept_of self.now f).state.bytes }
    {
        match self.by_id.get(&f) {
            Some(file) => file.bytes.as_slice(),
            None => &[],
        }
    }

    /// Acts on a file. Where it finds no memory, every file is as it was.
    pub fn act(&mut self, f: FileId, act: &Act) -> Result<(), AllocError>
        requires { IsPossible act.now (kept_of self.old f).state }
        ensures acted { OnOk result ((g : FileId) → kept_of self.new g ≡ cond (is_file f g) (after_act act.now (kept_of self.old g)) (kept_of self.old g)) }
        ensures err { OnErr result ((g : FileId) → kept_of self.new g ≡ kept_of self.old g) }
    {
        match self.by_id.get_mut(&f) {
            Some(file) => file.act(act),
            None => self.make(f, act),
        }
    }

    // Makes a file, and acts on it.
    fn make(&mut self, f: FileId, act: &Act) -> Result<(), AllocError>
        requires absent { get id_cmp self.old.by_id f ≡ None }
        requires possible { IsPossible act.now fresh.state }
        ensures made { OnOk result ((g : FileId) → kept_of self.new g ≡ cond (is_file f g) (after_act act.now (kept_of self.old g)) (kept_of self.old g)) }
        ensures err { OnErr result ((g : FileId) → kept_of self.new g ≡ kept_of self.old g) }
    {
        let mut file = MemFile::new(self.alloc);
        file.act(act)?;
        self.by_id.insert(f, file)?;
        Ok(())
    }

    /// The names of the files.
    pub fn names(&self) -> Result<Vec<FileId>, AllocError>
        ensures { IfOk result (λ names. names.items ≡ keys self.now.by_id) }
    {
        self.by_id.keys().copied().collect(self.alloc)
    }

    /// The bytes that a crash leaves of a file.
    pub fn image(&self, f: FileId, pick: Pick) -> Result<Vec<u8>, AllocError>
        requires { HasLengths (kept_of self.now f).state }
        ensures { IfOk result (λ image. IsPicked pick (kept_of self.now f) image.items) }
    {
        match self.by_id.get(&f) {
            Some(file) => file.image(pick),
            None => Ok(Vec::new(self.alloc)),
        }
    }
}
