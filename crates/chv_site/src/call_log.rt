// The calls of a site in memory, with what they made of its files and its text.
ghost use Rattle.std.specs.Prelude.{◌≡◌, [], ◌∷◌, IfOk, OnOk, OnErr};
ghost use Rattle.chv_site.specs.declared.file_id.FileId.{FileId};
ghost use Rattle.chv_site.specs.declared.call.Act.TheVariants.{Put};
ghost use Rattle.chv_site.specs.declared.call.Call.TheVariants.{OnFile, Say};
ghost use Rattle.chv_site.specs.Crash.{IsPicked, IsRestored};
ghost use Rattle.chv_site.specs.Calls.{kept_after, state_after, text_after, IsPossible};

use crate::FileId;
use crate::call::{Act, Bytes, Call};
use crate::file_store::FileStore;
use crate::pick::Pick;
use std::alloc::{AllocError, Global};
use std::marker::Model;

/// The calls that changed something, which a clause sees as a list, the newest of them first.
#[derive(Drop)]
pub struct CallLog {
    alloc: Global,
    calls: Vec<Call>,
    files: FileStore,
    text: Vec<u8>,
}

impl Model for CallLog {
    ghost use Rattle.std.specs.Prelude.{List, reverse};
    ghost use Rattle.chv_site.specs.declared.call.Call.{Call as Seen};

    ghost Value = { List Seen };

    ghost use Rattle.chv_site.specs.CallLog.{IsMade};

    ghost view = { λ a. reverse a.calls.items };

    ghost invariant = { IsMade };
}

impl CallLog {
    /// No calls so far.
    pub fn new(alloc: Global) -> CallLog
        ensures { result ≡ [] }
    {
        CallLog {
            alloc,
            calls: Vec::new(alloc),
            files: FileStore::new(alloc),
            text: Vec::new(alloc),
        }
    }

    /// What a file has.
    pub fn read(&self, f: FileId) -> &[u8]
        ensures { result.now ≡ (state_after self.now f).bytes }
    {
        self.files.read(f)
    }

    /// What was said.
    pub fn text(&self) -> &[u8]
        ensures { result.now ≡ text_after self.now }
    {
        &self.text
    }

    /// Acts on a file. Where it finds no memory, all is as it was.
    pub fn act(&mut self, file: FileId, act: Act) -> Result<(), AllocError>
        requires { IsPossible act (state_after self.old file) }
        ensures acted { OnOk result (self.new ≡ OnFile file act ∷ self.old) }
        ensures err { OnErr result (self.new ≡ self.old) }
    {
        self.calls.reserve(1)?;
        self.files.act(file, &act)?;
        match self.calls.push(Call::OnFile { file, act }) {
            Ok(()) => Ok(()),
            Err(_) => {
                prove!(false);
                Ok(())
            }
        }
    }

    /// What a put of these bytes does.
    pub fn put_of(&self, at: usize, bytes: &[u8]) -> Result<Act, AllocError>
        ensures { IfOk result (λ act. act ≡ Put at bytes.now) }
    {
        let bytes = Bytes::copied(self.alloc, bytes)?;
        Ok(Act::Put { at, bytes })
    }

    /// Says bytes. Where it finds no memory, all is as it was.
    pub fn say(&mut self, bytes: &[u8]) -> Result<(), AllocError>
        ensures said { OnOk result (self.new ≡ Say bytes.now ∷ self.old) }
        ensures err { OnErr result (self.new ≡ self.old) }
    {
        self.calls.reserve(1)?;
        let kept = Bytes::copied(self.alloc, bytes)?;
        self.text.extend_from_slice(bytes)?;
        match self.calls.push(Call::Say { bytes: kept }) {
            Ok(()) => Ok(()),
            Err(_) => {
                prove!(false);
                Ok(())
            }
        }
    }

    /// A record of the files that a crash leaves: all of them on the disk, and nothing said.
    pub fn crash(&self, pick: Pick) -> Result<CallLog, AllocError>
        ensures files { IfOk result (λ made. (g : FileId) → IsRestored pick (kept_after self.now g) (kept_after made g)) }
        ensures text { IfOk result (λ made. text_after made ≡ []) }
    {
        let names = self.files.names()?;
        let mut made = CallLog::new(self.alloc);
        for name in &names {
            let image = self.image(*name, pick)?;
            made.act(*name, Act::Restore { bytes: image })?;
        }
        Ok(made)
    }

    // The bytes that a crash leaves of a file.
    fn image(&self, f: FileId, pick: Pick) -> Result<Bytes, AllocError>
        ensures { IfOk result (λ image. IsPicked pick (kept_after self.now f) image) }
    {
        let image = self.files.image(f, pick)?;
        Ok(Bytes::of_items(image))
    }

    /// The allocator of its lists.
    pub fn alloc(&self) -> Global {
        self.alloc
    }
}
