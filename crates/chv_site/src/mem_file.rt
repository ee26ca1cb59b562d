// A file in memory.
ghost use Rattle.std.specs.Prelude.{◌≡◌, ◌+◌, ◌^◌, ◌<◌, ◌≤◌, length, vec_len, IsOk, IfOk, OnOk, OnErr};
ghost use Rattle.std.specs.Vec.{vec_capacity};
ghost use Rattle.chv_site.specs.Files.{settled};
ghost use Rattle.chv_site.specs.Images.{HasLengths};
ghost use Rattle.chv_site.specs.Crash.{IsTornBy, IsPicked};
ghost use Rattle.chv_site.specs.Calls.{restored, fresh, put_begun, put_done, cut_begun, cut_done, after_act, IsPossible};
ghost use Rattle.chv_site.specs.MemFile.{kept_in_file};

use crate::call::Act;
use crate::copying::{fill_all, over_write};
use crate::pick::Pick;
use std::alloc::{AllocError, Global};

/// A file in memory, with all that a crash may do to it.
#[derive(Debug, Drop)]
pub struct MemFile {
    alloc: Global,
    pub bytes: Vec<u8>,
    /// The bytes at the last sync.
    pub synced: Vec<u8>,
    /// The least length since then.
    pub least: usize,
    /// The greatest length since then.
    pub most: usize,
    /// The ranges put since then, each up to the place behind it.
    pub touched: Vec<(usize, usize)>,
}

impl MemFile {
    /// An empty file with nothing pending.
    pub fn new(alloc: Global) -> MemFile
        ensures { kept_in_file result ≡ fresh }
    {
        MemFile {
            alloc,
            bytes: Vec::new(alloc),
            synced: Vec::new(alloc),
            least: 0,
            most: 0,
            touched: Vec::new(alloc),
        }
    }

    /// Acts on the file. Where it finds no memory, the file is as it was.
    pub fn act(&mut self, act: &Act) -> Result<(), AllocError>
        requires { IsPossible act.now (kept_in_file self.old).state }
        ensures acted { OnOk result (kept_in_file self.new ≡ after_act act.now (kept_in_file self.old)) }
        ensures err { OnErr result (kept_in_file self.new ≡ kept_in_file self.old) }
    {
        match act {
            Act::Put { at, bytes } => self.put(*at, bytes.as_slice()),
            Act::BeginPut { at, len } => self.begin_put(*at, *len),
            Act::Cut { len } => {
                self.cut(*len);
                Ok(())
            }
            Act::BeginCut { len } => {
                self.begin_cut(*len);
                Ok(())
            }
            Act::Sync => self.sync(),
            Act::Restore { bytes } => self.restore(bytes.as_slice()),
        }
    }

    fn put(&mut self, at: usize, bytes: &[u8]) -> Result<(), AllocError>
        requires inside { at ≤ length self.old.bytes.items }
        requires room { at + length bytes.now < 2 ^ 64 }
        ensures put { OnOk result (kept_in_file self.new ≡ record (kept_in_file self.old) { state = put_done at bytes.now (kept_in_file self.old).state }) }
        ensures err { OnErr result (kept_in_file self.new ≡ kept_in_file self.old) }
    {
        self.touched.reserve(1)?;
        over_write(&mut self.bytes, at, bytes)?;
        self.begin_put(at, bytes.len())
    }

    fn begin_put(&mut self, at: usize, len: usize) -> Result<(), AllocError>
        requires { at + len < 2 ^ 64 }
        ensures begun { OnOk result (kept_in_file self.new ≡ record (kept_in_file self.old) { state = put_begun at len (kept_in_file self.old).state }) }
        ensures err { OnErr result (kept_in_file self.new ≡ kept_in_file self.old) }
        ensures succeeds { vec_len self.old.touched < vec_capacity self.old.touched → IsOk result }
    {
        self.touched.push((at, at + len))?;
        self.most = self.most.max(at + len);
        Ok(())
    }

    fn cut(&mut self, len: usize)
        ensures { kept_in_file self.new ≡ record (kept_in_file self.old) { state = cut_done len (kept_in_file self.old).state } }
    {
        self.bytes.truncate(len);
        self.begin_cut(len);
    }

    fn begin_cut(&mut self, len: usize)
        ensures { kept_in_file self.new ≡ record (kept_in_file self.old) { state = cut_begun len (kept_in_file self.old).state } }
    {
        self.least = self.least.min(len);
    }

    fn sync(&mut self) -> Result<(), AllocError>
        ensures synced { OnOk result (kept_in_file self.new ≡ restored (kept_in_file self.old).state.bytes) }
        ensures err { OnErr result (kept_in_file self.new ≡ kept_in_file self.old) }
    {
        self.synced = self.bytes.clone()?;
        self.settle();
        Ok(())
    }

    fn restore(&mut self, bytes: &[u8]) -> Result<(), AllocError>
        ensures restored { OnOk result (kept_in_file self.new ≡ restored bytes.now) }
        ensures err { OnErr result (kept_in_file self.new ≡ kept_in_file self.old) }
    {
        let synced = bytes.to_vec(self.alloc)?;
        self.bytes = bytes.to_vec(self.alloc)?;
        self.synced = synced;
        self.settle();
        Ok(())
    }

    // Nothing is pending.
    fn settle(&mut self)
        ensures { kept_in_file self.new ≡ record (kept_in_file self.old) { state = settled (kept_in_file self.old).state.bytes } }
    {
        self.least = self.bytes.len();
        self.most = self.bytes.len();
        self.touched.clear();
    }

    /// The bytes that a crash leaves of it.
    pub fn image(&self, pick: Pick) -> Result<Vec<u8>, AllocError>
        requires { HasLengths (kept_in_file self.now).state }
        ensures { IfOk result (λ image. IsPicked pick (kept_in_file self.now) image.items) }
    {
        match pick {
            Pick::Old => self.synced.to_vec(self.alloc),
            Pick::New => self.bytes.to_vec(self.alloc),
            Pick::Torn { byte } => self.torn(byte),
        }
    }

    // The file at its greatest length, with a byte in every place that a crash may change.
    fn torn(&self, byte: u8) -> Result<Vec<u8>, AllocError>
        requires { HasLengths (kept_in_file self.now).state }
        ensures { IfOk result (λ image. IsTornBy byte (kept_in_file self.now).state image.items) }
    {
        let mut image = self.bytes[..self.least].to_vec(self.alloc)?;
        image.resize(self.most, byte)?;
        fill_all(&mut image, &self.touched, byte);
        Ok(image)
    }
}
