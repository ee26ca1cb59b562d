// Files of parts.
ghost use Rattle.std.specs.Prelude.{◌≡◌, ◌<◌, ◌^◌, ⊤, length, OnOk, IsErr};
ghost use Rattle.chv_site.specs.Files.{settled};
ghost use Rattle.chv_site.specs.Effects.{ChangesOnly};
ghost use Rattle.chv_gate.specs.Crashes.{Leaves};

use chv_site::{Failed, FileId, Site};

/// Writes the file of a part anew, over whatever a run that was stopped left there, and syncs it.
pub fn write_part<W: Site>(site: &mut W, f: FileId, bytes: &[u8]) -> Result<(), Failed>
    requires { length bytes.now < 2 ^ 64 }
    ensures written { W.tells → OnOk result ((W.outside site.new).files f ≡ settled bytes.now) }
    // A crash at any moment leaves the other files as before the call.
    ensures during { W.tells → Leaves f (λ bytes. ⊤) (W.outside site.old) (W.outside site.new) }
    ensures keeps { ChangesOnly W.tells (IsErr result) f (W.outside site.old) (W.outside site.new) }
{
    // A run that was stopped in front of its commit may have left a longer file under this number.
    site.cut(f, 0)?;
    site.put(f, 0, bytes)?;
    site.sync(f)
}
