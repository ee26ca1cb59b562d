// The bytes of keys, and their places.
ghost use Rattle.std.specs.Prelude.{◌≡◌, ◌+◌, ◌++◌, ◌∷◌, ◌<◌, ◌^◌, [], ℤ, map, None, IfOk, IfSome, IsNone, IsSome, OnOk};
ghost use Rattle.std.specs.Option.{option_map};
ghost use Rattle.std.specs.Ordering.{int_eq};
ghost use Rattle.std.specs.List.{All, position};
ghost use Rattle.std.specs.Int.{w128};
ghost use Rattle.std.specs.Int.RustNames.{FitsSigned};
ghost use Rattle.chv_group.specs.KeyBytes.{AreKept, IsHeld, key_bytes, names_of, number_name, texts_of};
ghost use Rattle.chv_types.specs.Names.{place_of};
ghost use Rattle.chv_types.specs.Values.{seen_value};
ghost use Rattle.chv_types.specs.declared.value.Value.TheVariants as value;

use crate::climbing::{is_above, place_at_end, settle};
use crate::key_bytes::put_key;
use chv_types::Seen;
use indexmap::IndexSet;
use std::alloc::{AllocError, Global};
use std::marker::Model;

/// The bytes of keys that differ, in the order in which they came. Those of a key are found by their hash.
#[derive(Debug, Drop)]
pub struct KeyNames {
    // The first keys, as long as each is one number above the one before: these are found without their hash.
    climbing: Vec<i128>,
    // The first keys, as long as each is one number.
    numbers: IndexSet<i128>,
    // The bytes of the keys behind them.
    texts: IndexSet<Vec<u8>>,
}

impl Model for KeyNames {
    ghost use Rattle.std.specs.Prelude.{◌++◌, List, ℕ};
    ghost use Rattle.chv_group.specs.KeyBytes.{AreKept, names_of};

    ghost Value = { List (List ℕ) };

    ghost view = { λ names. names_of (names.climbing.items ++ names.numbers.keys) names.texts.keys };

    ghost invariant = { λ names. AreKept names.climbing.items names.numbers.keys };
}

impl KeyNames {
    /// No keys. It takes no memory.
    pub(crate) fn new(alloc: Global) -> KeyNames
        ensures { result ≡ [] }
    {
        KeyNames {
            climbing: Vec::new(alloc),
            numbers: IndexSet::new(alloc),
            texts: IndexSet::new(alloc),
        }
    }

    /// The place of a key, counted from 0; None exactly where it is not there. Its bytes are put behind `name`, where they are
    /// needed.
    pub(crate) fn place(
        &mut self,
        alloc: Global,
        key: &[Seen<'_>],
        name: &mut Vec<u8>,
    ) -> Result<Option<usize>, AllocError>
        requires empty { name.old.items ≡ [] }
        ensures kept { OnOk result (self.new ≡ self.old) }
        ensures place { IfOk result (λ place. place ≡ place_of (key_bytes (map seen_value key.now)) self.old) }
        ensures held { OnOk result (All IsHeld (map seen_value key.now)) }
    {
        if let Some(place) = self.place_at_end(key) {
            return Ok(place);
        }
        settle(alloc, &mut self.climbing, &mut self.numbers)?;
        place_in(&self.numbers, &self.texts, key, name)
    }

    // The place of a key that is one number, where it is seen at the end of numbers that climb.
    fn place_at_end(&self, key: &[Seen<'_>]) -> Option<Option<usize>>
        ensures place { IfSome result (λ place. place ≡ place_of (key_bytes (map seen_value key.now)) self.now) }
        ensures held { IsSome result → All IsHeld (map seen_value key.now) }
    {
        if !self.numbers.is_empty() || !self.texts.is_empty() {
            return None;
        }
        match number_in(key) {
            Some(n) => place_at_end(self.climbing.as_slice(), n),
            None => None,
        }
    }

    /// Puts the bytes of a new key behind the others.
    pub(crate) fn add(
        &mut self,
        alloc: Global,
        key: &[Seen<'_>],
        name: &mut Vec<u8>,
    ) -> Result<(), AllocError>
        requires new { place_of (key_bytes (map seen_value key.now)) self.old ≡ None }
        ensures { OnOk result (self.new ≡ self.old ++ key_bytes (map seen_value key.now) ∷ []) }
    {
        match number_in(key) {
            Some(n) if self.texts.is_empty() => {
                add_number(alloc, &mut self.climbing, &mut self.numbers, n)
            }
            _ => add_bytes(alloc, &mut self.texts, key, name),
        }
    }

    /// Lets all keys go.
    pub(crate) fn clear(&mut self)
        ensures { self.new ≡ [] }
    {
        self.climbing.clear();
        self.numbers.clear();
        self.texts.clear();
    }
}

// The place of a key among numbers and the texts behind them.
fn place_in(
    numbers: &IndexSet<i128>,
    texts: &IndexSet<Vec<u8>>,
    key: &[Seen<'_>],
    name: &mut Vec<u8>,
) -> Result<Option<usize>, AllocError>
    requires numbers { All (FitsSigned w128) numbers.now.keys }
    requires empty { name.old.items ≡ [] }
    ensures place { IfOk result (λ place. place ≡ place_of (key_bytes (map seen_value key.now)) (names_of numbers.now.keys texts.now.keys)) }
    ensures held { OnOk result (All IsHeld (map seen_value key.now)) }
{
    match number_in(key) {
        Some(n) => place_of_number(numbers, texts, n, key, name),
        None => place_behind(numbers.len(), texts, key, name),
    }
}

// The place of a key that is one number.
fn place_of_number(
    numbers: &IndexSet<i128>,
    texts: &IndexSet<Vec<u8>>,
    n: i128,
    key: &[Seen<'_>],
    name: &mut Vec<u8>,
) -> Result<Option<usize>, AllocError>
    requires numbers { All (FitsSigned w128) numbers.now.keys }
    requires key { map seen_value key.now ≡ value.Whole n ∷ [] }
    requires empty { name.old.items ≡ [] }
    ensures place { IfOk result (λ place. place ≡ place_of (number_name n) (names_of numbers.now.keys texts.now.keys)) }
    ensures held { OnOk result (IsHeld (value.Whole n)) }
{
    match index_of(numbers, n) {
        Some(place) => Ok(Some(place)),
        None => {
            if texts.is_empty() {
                return Ok(None);
            }
            place_behind(numbers.len(), texts, key, name)
        }
    }
}

// The place of a number in a set.
fn index_of(numbers: &IndexSet<i128>, n: i128) -> Option<usize>
    ensures place { result ≡ position (int_eq n) numbers.now.keys }
    ensures fits { FitsSigned w128 n }
{
    numbers.get_index_of(&n)
}

// The place of the bytes of a key in a set that stands behind so many keys.
fn place_behind(
    first: usize,
    texts: &IndexSet<Vec<u8>>,
    key: &[Seen<'_>],
    name: &mut Vec<u8>,
) -> Result<Option<usize>, AllocError>
    requires first { first < 2 ^ 63 }
    requires empty { name.old.items ≡ [] }
    ensures place { IfOk result (λ place. place ≡ option_map (λ place. first + place) (place_of (key_bytes (map seen_value key.now)) (texts_of texts.now.keys))) }
    ensures held { OnOk result (All IsHeld (map seen_value key.now)) }
{
    put_key(key, name)?;
    Ok(bytes_behind(first, texts, name.as_slice()))
}

// The place of bytes in a set that stands behind so many keys.
fn bytes_behind(first: usize, texts: &IndexSet<Vec<u8>>, name: &[u8]) -> Option<usize>
    requires first { first < 2 ^ 63 }
    ensures { result ≡ option_map (λ place. first + place) (place_of name.now (texts_of texts.now.keys)) }
{
    let _count = texts.len();
    match texts.get_index_of(name) {
        Some(place) => Some(first + place),
        None => None,
    }
}

// Puts a new number behind the others.
fn add_number(
    alloc: Global,
    climbing: &mut Vec<i128>,
    numbers: &mut IndexSet<i128>,
    n: i128,
) -> Result<(), AllocError>
    requires kept { AreKept climbing.old.items numbers.old.keys }
    requires new { place_of (number_name n) (map number_name (climbing.old.items ++ numbers.old.keys)) ≡ None }
    ensures kept { AreKept climbing.new.items numbers.new.keys }
    ensures added { OnOk result (climbing.new.items ++ numbers.new.keys ≡ (climbing.old.items ++ numbers.old.keys) ++ n ∷ []) }
{
    if numbers.is_empty() && is_above(climbing.as_slice(), n) {
        climbing.push(n)?;
        return Ok(());
    }
    settle(alloc, climbing, numbers)?;
    add_to_set(numbers, n)
}

// Puts a new number into a set of numbers.
fn add_to_set(numbers: &mut IndexSet<i128>, n: i128) -> Result<(), AllocError>
    requires numbers { All (FitsSigned w128) numbers.old.keys }
    requires new { place_of (number_name n) (map number_name numbers.old.keys) ≡ None }
    ensures added { OnOk result (numbers.new.keys ≡ numbers.old.keys ++ n ∷ []) }
    ensures fit { All (FitsSigned w128) numbers.new.keys }
{
    numbers.insert(n)?;
    Ok(())
}

// Puts the bytes of a new key behind the others.
fn add_bytes(
    alloc: Global,
    texts: &mut IndexSet<Vec<u8>>,
    key: &[Seen<'_>],
    name: &mut Vec<u8>,
) -> Result<(), AllocError>
    requires new { place_of (key_bytes (map seen_value key.now)) (texts_of texts.old.keys) ≡ None }
    ensures { OnOk result (texts_of texts.new.keys ≡ texts_of texts.old.keys ++ key_bytes (map seen_value key.now) ∷ []) }
{
    name.clear();
    put_key(key, name)?;
    let name = Vec::from_slice(alloc, name.as_slice())?;
    texts.insert(name)?;
    Ok(())
}

/// The number that is a key's one value, where it is one.
pub(crate) fn number_in(key: &[Seen<'_>]) -> Option<i128>
    ensures number { IfSome result (λ n. map seen_value key.now ≡ value.Whole n ∷ []) }
    ensures other { IsNone result → (n : ℤ) → map seen_value key.now ≡ value.Whole n ∷ [] → ⊥ }
{
    if key.len() != 1 {
        return None;
    }
    match key[0] {
        Seen::Whole(n) => Some(n),
        _ => None,
    }
}
