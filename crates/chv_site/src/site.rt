// Files and a console.
ghost use Rattle.std.specs.Prelude.{◌≡◌, ◌+◌, ◌-◌, ◌^◌, ◌<◌, ◌≤◌, List, ℕ, length, take, drop, min, IfOk, OnOk, OnErr, IsErr};
ghost use Rattle.chv_site.specs.declared.file_id.FileId.{FileId};
ghost use Rattle.chv_site.specs.Files.{settled, over_written, IsPut, IsCut};
ghost use Rattle.chv_site.specs.Images.{Image, IsImage, IsLeft, HasLengths};
ghost use Rattle.chv_site.specs.Outside.{Outside, bytes_in};
ghost use Rattle.chv_site.specs.During.{During};
ghost use Rattle.chv_site.specs.Effects.{OnlyReads, ChangesOnly, Says};

use crate::{Failed, FileId};

/// The files of a store and the console. An absent file reads as empty.
///
/// A call that fails raises its count of faults: `disk_faults` for the calls on files, `say_faults` for `say`.
pub trait Site {
    /// Holds where the site tells what it has: each clause on content is under this premise.
    ghost tells: { Type 0 };

    /// All that is outside: files, console, what a crash may have left of them, and the counts of faults.
    ghost outside: { Self → Outside };

    /// The length of a file in bytes.
    fn size(&mut self, f: FileId) -> Result<u64, Failed>
        ensures size { tells → IfOk result (λ n. n ≡ length (bytes_in (outside self.old) f)) }
        ensures keeps { OnlyReads tells (IsErr result) (outside self.old) (outside self.new) };

    /// Reads from place `at` on, as many bytes as the buffer and the file allow, and answers how many.
    /// What the buffer holds behind them, and after an `Err` anywhere, is open.
    fn fetch(&mut self, f: FileId, at: u64, buf: &mut [u8]) -> Result<usize, Failed>
        ensures within { IfOk result (λ n. n ≤ length buf.old) }
        ensures count { tells → IfOk result (λ n. n ≡ min (length buf.old) (length (bytes_in (outside self.old) f) - at)) }
        ensures bytes { tells → IfOk result (λ n. take n buf.new ≡ take n (drop at (bytes_in (outside self.old) f))) }
        ensures keeps { OnlyReads tells (IsErr result) (outside self.old) (outside self.new) };

    /// Writes bytes at place `at`, over what is there and past the end.
    /// After an `Err` the range may hold any bytes.
    fn put(&mut self, f: FileId, at: u64, bytes: &[u8]) -> Result<(), Failed>
        requires inside { tells → at ≤ length (bytes_in (outside self.old) f) }
        requires room { at + length bytes.now < 2 ^ 64 }
        ensures put { tells → OnOk result (bytes_in (outside self.new) f ≡ over_written at bytes.now (bytes_in (outside self.old) f)) }
        ensures torn { tells → IsPut at (length bytes.now) ((outside self.old).files f) ((outside self.new).files f) }
        ensures during { tells → During (outside self.old) (outside self.new) (IsLeft (outside self.new).files (outside self.old).said) }
        ensures keeps { ChangesOnly tells (IsErr result) f (outside self.old) (outside self.new) };

    /// Cuts a file to `len` bytes. After an `Err` its length lies between `len` and the old one.
    fn cut(&mut self, f: FileId, len: u64) -> Result<(), Failed>
        requires { tells → len ≤ length (bytes_in (outside self.old) f) }
        ensures cut { tells → OnOk result (bytes_in (outside self.new) f ≡ take len (bytes_in (outside self.old) f)) }
        ensures torn { tells → IsCut len ((outside self.old).files f) ((outside self.new).files f) }
        ensures during { tells → During (outside self.old) (outside self.new) (IsLeft (outside self.new).files (outside self.old).said) }
        ensures keeps { ChangesOnly tells (IsErr result) f (outside self.old) (outside self.new) };

    /// After an `Ok`, a crash leaves the file as it reads.
    fn sync(&mut self, f: FileId) -> Result<(), Failed>
        ensures durable { tells → OnOk result ((outside self.new).files f ≡ settled (bytes_in (outside self.old) f)) }
        ensures err { tells → OnErr result ((outside self.new).files f ≡ (outside self.old).files f) }
        ensures during { tells → During (outside self.old) (outside self.new) (IsLeft (outside self.old).files (outside self.old).said) }
        ensures keeps { ChangesOnly tells (IsErr result) f (outside self.old) (outside self.new) };

    /// Removes a file, which then reads as empty. After an `Err` its length lies between 0 and the old one.
    fn discard(&mut self, f: FileId) -> Result<(), Failed>
        ensures discarded { tells → OnOk result (bytes_in (outside self.new) f ≡ take 0 (bytes_in (outside self.old) f)) }
        ensures torn { tells → IsCut 0 ((outside self.old).files f) ((outside self.new).files f) }
        ensures during { tells → During (outside self.old) (outside self.new) (IsLeft (outside self.new).files (outside self.old).said) }
        ensures keeps { ChangesOnly tells (IsErr result) f (outside self.old) (outside self.new) };

    /// Says bytes on the console. After an `Err` a front of them was said.
    fn say(&mut self, bytes: &[u8]) -> Result<(), Failed>
        ensures { Says tells bytes.now result (outside self.old) (outside self.new) };

    /// This moment is one of those since an earlier one.
    ghost counts_now: { (s : Self) (t : ℕ) (image : Image) → t ≤ (outside s).moment → IsImage (outside s).files image → (outside s).left_since t image (outside s).said };

    /// Since this moment there is no other.
    ghost only_now: { (s : Self) (image : Image) (text : List ℕ) → (outside s).left_since (outside s).moment image text → IsLeft (outside s).files (outside s).said image text };

    /// A crash may leave each file as long as it reads.
    ghost reads: { (s : Self) (f : FileId) → HasLengths ((outside s).files f) };
}
