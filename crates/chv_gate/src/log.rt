// A log that is appended to.
ghost use Rattle.std.specs.Prelude.{◌≡◌, ◌+◌, ◌^◌, ◌<◌, ◌++◌, [], ◌∷◌, List, ℕ, length, OnOk, IsErr};
ghost use Rattle.chv_site.specs.Outside.{bytes_in};
ghost use Rattle.chv_site.specs.Effects.{ChangesOnly};
ghost use Rattle.chv_gate.specs.GateLog.{IsPayload, IsReady, frame_of};
ghost use Rattle.chv_gate.specs.Crashes.{Leaves, HasFramesOrMore};

use crate::framing::OPEN;
use crate::writing::write_synced;
use chv_site::{Failed, FileId, Site};

/// A log that is appended to: its file, and the place of its standing gate.
#[derive(Debug, Drop)]
pub struct Log {
    file: FileId,
    gate: u64,
}

impl Log {
    /// The log in a file whose standing gate is at a place.
    pub fn at(file: FileId, gate: u64) -> Log
        ensures { result ≡ record { file = file; gate = gate } }
    {
        Log { file, gate }
    }

    /// Appends a frame: it goes behind the standing gate and is synced; then that gate is opened, and synced.
    /// After an `Err` the log is not used again.
    pub fn append<W: Site>(&mut self, site: &mut W, frame: &[u8]) -> Result<(), Failed>
        requires placed { W.tells → self.old.gate < length (bytes_in (W.outside site.old) self.old.file) }
        requires room { self.old.gate + 1 + length frame.now < 2 ^ 64 }
        ensures appended { W.tells → OnOk result ((payloads : List (List ℕ)) (payload : List ℕ)
            → IsReady self.old.gate payloads ((W.outside site.old).files self.old.file) → IsPayload payload → frame.now ≡ frame_of payload
            → IsReady self.new.gate (payloads ++ payload ∷ []) ((W.outside site.new).files self.old.file)) }
        // A crash at any moment of the call leaves the frames from before it, with the new one or without.
        ensures during { W.tells → (payloads : List (List ℕ)) (payload : List ℕ)
            → IsReady self.old.gate payloads ((W.outside site.old).files self.old.file) → IsPayload payload → frame.now ≡ frame_of payload
            → Leaves self.old.file (HasFramesOrMore payloads payload) (W.outside site.old) (W.outside site.new) }
        ensures placed { W.tells → OnOk result (self.new.gate < length (bytes_in (W.outside site.new) self.old.file)) }
        ensures file { self.new.file ≡ self.old.file }
        ensures gate { OnOk result (self.new.gate ≡ self.old.gate + length frame.now) }
        ensures keeps { ChangesOnly W.tells (IsErr result) self.old.file (W.outside site.old) (W.outside site.new) }
    {
        write_synced(site, self.file, self.gate + 1, frame)?;
        write_synced(site, self.file, self.gate, &[OPEN])?;
        self.gate += frame.len() as u64;
        Ok(())
    }
}
