// One synced write, of which each change of a log is made.
ghost use Rattle.std.specs.Prelude.{◌≡◌, ◌+◌, ◌^◌, ◌<◌, ◌≤◌, length, OnOk, IsErr};
ghost use Rattle.chv_site.specs.Files.{settled, over_written};
ghost use Rattle.chv_site.specs.Images.{IsTorn};
ghost use Rattle.chv_site.specs.Outside.{bytes_in};
ghost use Rattle.chv_site.specs.Effects.{ChangesOnly};
ghost use Rattle.chv_gate.specs.Crashes.{Leaves};

use chv_site::{Failed, FileId, Site};

/// Writes bytes at place `at`, over what is there and past the end, and syncs the file.
/// After an `Err` the range may hold any bytes.
pub fn write_synced<W: Site>(site: &mut W, f: FileId, at: u64, bytes: &[u8]) -> Result<(), Failed>
    requires inside { W.tells → at ≤ length (bytes_in (W.outside site.old) f) }
    requires room { at + length bytes.now < 2 ^ 64 }
    ensures written { W.tells → OnOk result ((W.outside site.new).files f ≡ settled (over_written at bytes.now (bytes_in (W.outside site.old) f))) }
    // A crash at any moment of the call leaves what was on the disk, torn within the range at most.
    ensures during { W.tells → (W.outside site.old).files f ≡ settled (bytes_in (W.outside site.old) f)
        → Leaves f (IsTorn at (length bytes.now) (bytes_in (W.outside site.old) f)) (W.outside site.old) (W.outside site.new) }
    ensures keeps { ChangesOnly W.tells (IsErr result) f (W.outside site.old) (W.outside site.new) }
{
    site.put(f, at, bytes)?;
    site.sync(f)
}
