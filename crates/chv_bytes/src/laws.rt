// What holds of all numbers and runs, as laws on the definitions.
ghost use Rattle.std.specs.Prelude.{List, ℕ, ℤ, ◌≡◌, ◌≤◌, ◌<◌, ◌+◌, ◌^◌, ◌++◌, length, take, drop};
ghost use Rattle.byteorder.specs.Endian.{little_bytes, little_number};
ghost use Rattle.chv_bytes.specs.Integers.{form_of, width_of, InRange, int_bytes, int_value};
ghost use Rattle.chv_bytes.specs.Places.{AreBytes};
ghost use Rattle.chv_bytes.specs.Runs.{run_bytes, between, RunFits, RunStandsAt};
ghost use Rattle.chv_bytes.specs.declared.integer.IntKind.{IntKind};

/// What a number is put as reads back as the number, whatever follows it: `unfix` of `fix` at every width.
pub fn law_number_reads_back()
    ensures { (width v : ℕ) (rest : List ℕ) → v < 256 ^ width → little_number width (little_bytes width v ++ rest) ≡ v }
{}

/// What bytes read as is put as these bytes: `fix` of `unfix` at every width.
pub fn law_bytes_of_number()
    ensures { (width : ℕ) (bytes : List ℕ) → width ≤ length bytes → AreBytes bytes → little_bytes width (little_number width bytes) ≡ take width bytes }
{}

/// What an integer is put as reads back as the integer, whatever follows it.
pub fn law_integer_reads_back()
    ensures { (kind : IntKind) (v : ℤ) (rest : List ℕ) → InRange kind v → int_value kind (int_bytes kind v ++ rest) ≡ v }
{}

/// What bytes read as is an integer of the kind, and is put as these bytes.
pub fn law_integer_of_bytes()
    ensures { (kind : IntKind) (bytes : List ℕ) → width_of kind ≤ length bytes → AreBytes bytes
        → InRange kind (int_value kind bytes) × (int_bytes kind (int_value kind bytes) ≡ take (width_of kind) bytes) }
{}

/// Bytes begin with one integer of a kind at most.
pub fn law_one_integer()
    ensures { (kind : IntKind) (v w : ℤ) (x y : List ℕ) → InRange kind v → InRange kind w
        → int_bytes kind v ++ x ≡ int_bytes kind w ++ y → (v ≡ w) × (x ≡ y) }
{}

/// Bytes begin with one run at most.
pub fn law_one_run()
    ensures { (a b x y : List ℕ) → length a < 2 ^ 32 → length b < 2 ^ 32 → run_bytes a ++ x ≡ run_bytes b ++ y → (a ≡ b) × (x ≡ y) }
{}

/// A run that stands at a place fits there.
pub fn law_run_fits()
    ensures { (run rest bytes : List ℕ) (at : ℕ) → length run < 2 ^ 32 → drop at bytes ≡ run_bytes run ++ rest → RunFits bytes at }
{}

/// A run that was put at a place is the one that stands there, whatever follows it.
pub fn law_run_reads_back()
    ensures { (run rest bytes : List ℕ) (at start end : ℕ) → length run < 2 ^ 32 → drop at bytes ≡ run_bytes run ++ rest → RunStandsAt bytes at start end
        → (between start end bytes ≡ run) × (drop end bytes ≡ rest) }
{}
