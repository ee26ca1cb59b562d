// The columns that an INSERT fills.
ghost use Rattle.std.specs.Prelude.{◌≡◌, ◌≤◌, ◌∷◌, [], length, map, Ok, Err, IfOk, IfErr};
ghost use Rattle.std.specs.List.{list_any};
ghost use Rattle.chv_ast.specs.declared.refusal.Refusal.{Refusal};
ghost use Rattle.chv_catalog.specs.Checks.{is_state};
ghost use Rattle.chv_query.specs.Plans.{kinds_at};
ghost use Rattle.chv_plan.specs.Places.{ArePlaces, kinds_in, checked_places, filled_places};

use chv_ast::{Names, Refusal};
use chv_catalog::{Named, StatementFault, has_repeat, has_unknown, is_state, places_of};
use chv_types::{Column, Places};
use std::alloc::Global;

/// The places of the columns that an INSERT fills, in its order: those that are listed, or all.
pub fn filled_places(
    alloc: Global,
    columns: &[Column],
    listed: &Option<Names>,
) -> Result<Places, StatementFault>
    requires few { length columns.now ≤ 64 }
    ensures places { IfOk result (λ places. filled_places columns.now listed.now ≡ Ok places) }
    ensures once { IfOk result (λ places. ArePlaces (length columns.now) places) }
    ensures refused { IfErr result (λ fault. (refusal : Refusal) → fault ≡ StatementFault.Refused refusal → filled_places columns.now listed.now ≡ Err refusal) }
{
    match listed {
        Some(names) => checked_places(alloc, columns, names.as_slice()),
        None => checked_places(alloc, columns, columns),
    }
}

// The places of the columns with these names, where each name may stand there.
fn checked_places<T: Named>(
    alloc: Global,
    columns: &[Column],
    names: &[T],
) -> Result<Places, StatementFault>
    requires few { length columns.now ≤ 64 }
    ensures places { IfOk result (λ places. checked_places columns.now (map T.text names.now) ≡ Ok places) }
    ensures once { IfOk result (λ places. ArePlaces (length columns.now) places) }
    ensures refused { IfErr result (λ fault. (refusal : Refusal) → fault ≡ StatementFault.Refused refusal → checked_places columns.now (map T.text names.now) ≡ Err refusal) }
{
    if has_unknown(columns, names) {
        return Err(StatementFault::Refused(Refusal::UnknownColumn));
    }
    if has_repeat(names) {
        return Err(StatementFault::Refused(Refusal::NameTaken));
    }
    let places = places_of(alloc, columns, names)?;
    if has_state(columns, places.as_slice()) {
        return Err(StatementFault::Refused(Refusal::TypeMismatch));
    }
    Ok(places)
}

// Whether a column at one of these places is a state.
fn has_state(columns: &[Column], places: &[u32]) -> bool
    ensures { result ≡ list_any is_state (kinds_at (kinds_in columns.now) places.now) }
{
    for place in places {
        if is_state_at(columns, *place) {
            return true;
        }
    }
    false
}

// Whether there is a column at a place, and it is a state.
fn is_state_at(columns: &[Column], place: u32) -> bool
    ensures { result ≡ list_any is_state (kinds_at (kinds_in columns.now) (place ∷ [])) }
{
    match columns.get(place as usize) {
        Some(column) => is_state(column.kind),
        None => false,
    }
}
