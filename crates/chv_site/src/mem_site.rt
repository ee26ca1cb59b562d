// A site in memory.
use crate::call::Act;
use crate::call_log::CallLog;
use crate::copying::copy_front;
use crate::mem_faults::MemFaults;
use crate::{Failed, Fails, FileId, Pick, Site};
use std::alloc::{AllocError, Global};

/// Files and a console in memory, whose calls fail where they are told to, and where they find no memory.
///
/// Its calls are counted together, the first being 1. It keeps a record of them, from which follows what a crash may
/// leave. A put or a cut that fails changes no byte, but was begun: until the next sync, a crash may leave the file torn.
#[derive(Drop)]
pub struct MemSite {
    log: CallLog,
    faults: MemFaults,
}

impl MemSite {
    ghost use Rattle.std.specs.Prelude.{◌≡◌, [], ◌∷◌, IsErr, IfOk, OnOk, OnErr};
    ghost use Rattle.std.specs.declared.option.Option.TheVariants.{Some};
    ghost use Rattle.chv_site.specs.declared.file_id.FileId.{FileId};
    ghost use Rattle.chv_site.specs.declared.call.Call.TheVariants.{OnFile};
    ghost use Rattle.chv_site.specs.Faults.{HasRisen, CountsDisk};
    ghost use Rattle.chv_site.specs.MemFaults.{uncounted, IsAsTold};
    ghost use Rattle.chv_site.specs.Images.{IsImage};
    ghost use Rattle.chv_site.specs.Crash.{IsRestored};
    ghost use Rattle.chv_site.specs.Calls.{kept_after, state_after, bytes_after, text_after, IsPossible, IsEnded};
    ghost use Rattle.chv_site.specs.MemSite.{calls_of, faults_of, outside_of, IsBegun};

    /// A site with no files, of which nothing was said. The calls with the numbers of `fails` fail.
    pub fn new(alloc: Global, fails: Fails) -> MemSite
        ensures calls { calls_of result ≡ [] }
        ensures faults { faults_of result ≡ uncounted fails }
    {
        MemSite {
            log: CallLog::new(alloc),
            faults: MemFaults::new(fails),
        }
    }

    /// From the call of this number on, every call fails.
    pub fn stop_at(&mut self, call: u64)
        ensures calls { calls_of self.new ≡ calls_of self.old }
        ensures faults { faults_of self.new ≡ record (faults_of self.old) { stop = Some call } }
    {
        self.faults.stop = Some(call);
    }

    /// The bytes said.
    pub fn said(&self) -> &[u8]
        ensures { result.now ≡ text_after (calls_of self.now) }
    {
        self.log.text()
    }

    /// What a file has. An absent one is empty.
    pub fn file(&self, f: FileId) -> &[u8]
        ensures { result.now ≡ (state_after (calls_of self.now) f).bytes }
    {
        self.log.read(f)
    }

    /// How many calls found no memory.
    pub fn lacked(&self) -> u64
        ensures { result ≡ (faults_of self.now).lacked }
    {
        self.faults.lacked
    }

    /// The site that is found after a crash now: the files are the image that is picked, nothing is pending, nothing was
    /// said, and no call is told to fail.
    pub fn crash(self, pick: Pick) -> Result<MemSite, AllocError>
        ensures files { IfOk result (λ made. (g : FileId) → IsRestored pick (kept_after (calls_of self) g) (kept_after (calls_of made) g)) }
        ensures image { IfOk result (λ made. IsImage (state_after (calls_of self)) (bytes_after (calls_of made))) }
        ensures said { IfOk result (λ made. text_after (calls_of made) ≡ []) }
        ensures faults { IfOk result (λ made. faults_of made ≡ uncounted []) }
    {
        let log = self.log.crash(pick)?;
        let fails = Fails::new(log.alloc());
        Ok(MemSite {
            log,
            faults: MemFaults::new(fails),
        })
    }

    // A call that acts on a file, or only begins to where it is told to fail.
    fn act(&mut self, f: FileId, act: Act, begun: Act) -> Result<(), Failed>
        requires act { IsPossible act (state_after (calls_of self.old) f) }
        requires begun { IsPossible begun (state_after (calls_of self.old) f) }
        ensures acted { OnOk result (calls_of self.new ≡ OnFile f act ∷ calls_of self.old) }
        ensures begun { OnErr result (IsBegun f begun self.old self.new) }
        ensures ended { IsEnded f act begun (calls_of self.old) (calls_of self.new) }
        ensures counts { CountsDisk (IsErr result) (outside_of self.old) (outside_of self.new) }
        ensures told { IsAsTold (faults_of self.old) (faults_of self.new) result }
    {
        if let Err(failed) = self.faults.begin_on_files() {
            if self.log.act(f, begun).is_err() {
                self.faults.lack();
            }
            return Err(failed);
        }
        let done = self.log.act(f, act);
        self.faults.end_on_files(done)
    }

    // A call on files that finds no memory.
    fn lack(&mut self) -> Result<(), Failed>
        ensures fails { IsErr result }
        ensures calls { calls_of self.new ≡ calls_of self.old }
        ensures lacked { HasRisen (faults_of self.old).lacked (faults_of self.new).lacked }
        ensures counts { CountsDisk (IsErr result) (outside_of self.old) (outside_of self.new) }
        ensures told { IsAsTold (faults_of self.old) (faults_of self.new) result }
    {
        if let Err(failed) = self.faults.begin_on_files() {
            self.faults.lack();
            return Err(failed);
        }
        self.faults.end_on_files(Err(AllocError))
    }
}

impl Site for MemSite {
    ghost use Rattle.std.specs.Prelude.{◌≡◌, ◌+◌, ◌-◌, ◌^◌, ◌<◌, ◌≤◌, length, take, drop, min, IfOk, OnOk, OnErr, IsErr};
    ghost use Rattle.chv_site.specs.declared.call.Act.TheVariants.{BeginPut, BeginCut};
    ghost use Rattle.chv_site.specs.MemFaults.{IsAsTold};
    ghost use Rattle.chv_site.specs.Files.{settled, over_written, IsPut, IsCut};
    ghost use Rattle.chv_site.specs.Images.{IsLeft};
    ghost use Rattle.chv_site.specs.During.{During};
    ghost use Rattle.chv_site.specs.Effects.{OnlyReads, ChangesOnly, Says};
    ghost use Rattle.chv_site.specs.Laws.{left_now, left_last, lengths_after};
    ghost use Rattle.chv_site.specs.MemSite.{calls_of, files_of, faults_of, outside_of, IsBegun};

    ghost tells = { Unit {0} };

    ghost outside = { outside_of };

    ghost counts_now = { λ m t image le is. left_now (calls_of m) t image is };

    ghost only_now = { λ m image text left. left_last (calls_of m) image text left };

    ghost reads = { λ m f. lengths_after (calls_of m) f };

    fn size(&mut self, f: FileId) -> Result<u64, Failed>
        ensures size { IfOk result (λ n. n ≡ length (files_of self.old f).bytes) }
        ensures keeps { OnlyReads (Unit {0}) (IsErr result) (outside_of self.old) (outside_of self.new) }
        ensures told { IsAsTold (faults_of self.old) (faults_of self.new) result }
    {
        self.faults.begin_on_files()?;
        Ok(self.log.read(f).len() as u64)
    }

    fn fetch(&mut self, f: FileId, at: u64, buf: &mut [u8]) -> Result<usize, Failed>
        ensures within { IfOk result (λ n. n ≤ length buf.old) }
        ensures count { IfOk result (λ n. n ≡ min (length buf.old) (length (files_of self.old f).bytes - at)) }
        ensures bytes { IfOk result (λ n. take n buf.new ≡ take n (drop at (files_of self.old f).bytes)) }
        ensures keeps { OnlyReads (Unit {0}) (IsErr result) (outside_of self.old) (outside_of self.new) }
        ensures told { IsAsTold (faults_of self.old) (faults_of self.new) result }
    {
        self.faults.begin_on_files()?;
        let file = self.log.read(f);
        let from = file.len().min(at as usize);
        Ok(copy_front(&file[from..], buf))
    }

    fn put(&mut self, f: FileId, at: u64, bytes: &[u8]) -> Result<(), Failed>
        requires inside { at ≤ length (files_of self.old f).bytes }
        requires room { at + length bytes.now < 2 ^ 64 }
        ensures put { OnOk result ((files_of self.new f).bytes ≡ over_written at bytes.now (files_of self.old f).bytes) }
        ensures torn { IsPut at (length bytes.now) (files_of self.old f) (files_of self.new f) }
        ensures during { During (outside_of self.old) (outside_of self.new) (IsLeft (files_of self.new) (outside_of self.old).said) }
        ensures keeps { ChangesOnly (Unit {0}) (IsErr result) f (outside_of self.old) (outside_of self.new) }
        ensures begun { OnErr result (IsBegun f (BeginPut at (length bytes.now)) self.old self.new) }
        ensures told { IsAsTold (faults_of self.old) (faults_of self.new) result }
    {
        let at = at as usize;
        let len = bytes.len();
        match self.log.put_of(at, bytes) {
            Ok(act) => self.act(f, act, Act::BeginPut { at, len }),
            Err(_) => self.lack(),
        }
    }

    fn cut(&mut self, f: FileId, len: u64) -> Result<(), Failed>
        requires { len ≤ length (files_of self.old f).bytes }
        ensures cut { OnOk result ((files_of self.new f).bytes ≡ take len (files_of self.old f).bytes) }
        ensures torn { IsCut len (files_of self.old f) (files_of self.new f) }
        ensures during { During (outside_of self.old) (outside_of self.new) (IsLeft (files_of self.new) (outside_of self.old).said) }
        ensures keeps { ChangesOnly (Unit {0}) (IsErr result) f (outside_of self.old) (outside_of self.new) }
        ensures begun { OnErr result (IsBegun f (BeginCut len) self.old self.new) }
        ensures told { IsAsTold (faults_of self.old) (faults_of self.new) result }
    {
        let len = len as usize;
        self.act(f, Act::Cut { len }, Act::BeginCut { len })
    }

    fn sync(&mut self, f: FileId) -> Result<(), Failed>
        ensures durable { OnOk result (files_of self.new f ≡ settled (files_of self.old f).bytes) }
        ensures err { OnErr result (files_of self.new f ≡ files_of self.old f) }
        ensures during { During (outside_of self.old) (outside_of self.new) (IsLeft (files_of self.old) (outside_of self.old).said) }
        ensures keeps { ChangesOnly (Unit {0}) (IsErr result) f (outside_of self.old) (outside_of self.new) }
        ensures told { IsAsTold (faults_of self.old) (faults_of self.new) result }
    {
        self.faults.begin_on_files()?;
        let done = self.log.act(f, Act::Sync);
        self.faults.end_on_files(done)
    }

    fn discard(&mut self, f: FileId) -> Result<(), Failed>
        ensures discarded { OnOk result ((files_of self.new f).bytes ≡ take 0 (files_of self.old f).bytes) }
        ensures torn { IsCut 0 (files_of self.old f) (files_of self.new f) }
        ensures during { During (outside_of self.old) (outside_of self.new) (IsLeft (files_of self.new) (outside_of self.old).said) }
        ensures keeps { ChangesOnly (Unit {0}) (IsErr result) f (outside_of self.old) (outside_of self.new) }
        ensures begun { OnErr result (IsBegun f (BeginCut 0) self.old self.new) }
        ensures told { IsAsTold (faults_of self.old) (faults_of self.new) result }
    {
        self.cut(f, 0)
    }

    fn say(&mut self, bytes: &[u8]) -> Result<(), Failed>
        ensures says { Says (Unit {0}) bytes.now result (outside_of self.old) (outside_of self.new) }
        ensures told { IsAsTold (faults_of self.old) (faults_of self.new) result }
    {
        self.faults.begin_say()?;
        let done = self.log.say(bytes);
        self.faults.end_say(done)
    }
}
