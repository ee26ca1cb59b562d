// Names in lists, and the columns that they name.
ghost use Rattle.std.specs.Prelude.{◌≡◌, ◌≤◌, ◌<◌, ℕ, List, length, map, IfSome, IfOk};
ghost use Rattle.std.specs.List.{list_any};
ghost use Rattle.chv_types.specs.Names.{place_of};
ghost use Rattle.chv_catalog.specs.Checks.{has_repeat, is_unknown, places_of};

use chv_ast::{ColumnDef, Name};
use chv_types::{Column, Places};
use std::alloc::{AllocError, Global};

/// What has a name.
pub trait Named {
    ghost text: { Self → List ℕ };

    /// Its name.
    fn text(&self) -> &[u8]
        ensures { result.now ≡ text self.now };
}

impl Named for Name {
    ghost text = { λ name. name };

    fn text(&self) -> &[u8] {
        self.as_slice()
    }
}

impl Named for ColumnDef {
    ghost text = { λ column. column.name };

    fn text(&self) -> &[u8] {
        self.name.as_slice()
    }
}

impl Named for Column {
    ghost text = { λ column. column.name };

    fn text(&self) -> &[u8] {
        self.name.as_slice()
    }
}

/// The place of the first item of a name, counted from 0.
pub fn place<T: Named>(items: &[T], name: &[u8]) -> Option<usize>
    ensures place { result ≡ place_of name.now (map T.text items.now) }
    ensures within { IfSome result (λ place. place < length items.now) }
{
    items.iter().position(|item| item.text() == name)
}

/// Whether two items have one name. Items are looked at up to the first that has the name of an earlier one.
pub fn has_repeat<T: Named>(items: &[T]) -> bool
    ensures { result ≡ has_repeat (map T.text items.now) }
{
    for i in 0..items.len() {
        if place(&items[..i], items[i].text()).is_some() {
            return true;
        }
    }
    false
}

/// Whether a name is that of no column.
pub fn has_unknown<C: Named, T: Named>(columns: &[C], names: &[T]) -> bool
    ensures { result ≡ list_any (is_unknown (map C.text columns.now)) (map T.text names.now) }
{
    names.iter().any(|name| is_unknown(columns, name.text()))
}

// Whether a name is that of no column.
fn is_unknown<C: Named>(columns: &[C], name: &[u8]) -> bool
    ensures { result ≡ is_unknown (map C.text columns.now) name.now }
{
    place(columns, name).is_none()
}

/// The places of the columns with these names, in the order of the names.
pub fn places_of<C: Named, T: Named>(
    alloc: Global,
    columns: &[C],
    names: &[T],
) -> Result<Places, AllocError>
    requires { length columns.now ≤ 64 }
    ensures { IfOk result (λ places. places ≡ places_of (map C.text columns.now) (map T.text names.now)) }
{
    let mut places = Places::new(alloc);
    for name in names {
        if let Some(place) = place(columns, name.text()) {
            places.push(place as u32)?;
        }
    }
    Ok(places)
}
