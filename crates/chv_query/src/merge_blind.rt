// Queries that do not see merges.
ghost use Rattle.std.specs.Prelude.{◌≡◌};
ghost use Rattle.std.specs.List.{list_all};
ghost use Rattle.std.specs.Option.{option_copied};
ghost use Rattle.chv_query.specs.MergeBlind.{all_take_states, filter_uses, group_uses, is_among, is_blind, is_key, use_key, uses_key};

use crate::Groups;
use crate::calls::takes_states;
use crate::keys::key_tree;
use chv_ast::{Args, Expr, Item, Select};
use chv_catalog::{TableDef, place};
use chv_group::AggCall;

/// Whether a query does not see which rows of its table merges have made one: it groups, WHERE and GROUP BY use only columns of
/// the sorting key, and each call takes states.
#[tactic(auto, unfolding(crate::specs::MergeBlind::is_blind))]
pub fn is_blind(def: &TableDef, select: &Select, grouping: Option<&Groups>) -> bool
    ensures { result ≡ is_blind def.now select.now (option_copied grouping.entry) }
{
    match grouping {
        Some(groups) => {
            filter_uses(def, select.filter.as_ref())
                && groups_use(def, select.items.as_slice(), select.keys.as_slice())
                && all_take_states(groups.calls.as_slice())
        }
        None => false,
    }
}

// Whether there is no condition, or it uses only columns of the sorting key.
fn filter_uses(def: &TableDef, filter: Option<&Expr>) -> bool
    ensures { result ≡ filter_uses def.now (option_copied filter.entry) }
{
    match filter {
        Some(condition) => uses_key(def, condition),
        None => true,
    }
}

// Whether what the keys of GROUP BY stand for uses only columns of the sorting key.
fn groups_use(def: &TableDef, items: &[Item], keys: &[Expr]) -> bool
    ensures { result ≡ list_all (group_uses def.now items.now) keys.now }
{
    keys.iter().all(|key| group_uses(def, items, key))
}

// Whether what a key of GROUP BY stands for uses only columns of the sorting key.
fn group_uses(def: &TableDef, items: &[Item], key: &Expr) -> bool
    ensures { result ≡ group_uses def.now items.now key.now }
{
    match key_tree(def.columns.as_slice(), items, key) {
        Some(expr) => uses_key(def, expr),
        None => false,
    }
}

// Whether each call takes states.
fn all_take_states(calls: &[AggCall]) -> bool
    ensures { result ≡ all_take_states calls.now }
{
    calls.iter().all(|call| takes_states(call.form))
}

// Whether an expression uses only columns of the sorting key.
#[cycle(walk)]
#[tactic(auto, using(crate::proofs::MergeBlindLaws::use_laws))]
fn uses_key(def: &TableDef, expr: &Expr) -> bool
    ensures { result ≡ uses_key def.now expr.now }
{
    match expr {
        Expr::Column(name) => is_key(def, name.as_slice()),
        Expr::Literal(_) => true,
        Expr::Unary { op: _, arg } => uses_key(def, arg.get()),
        Expr::Binary { op: _, left, right } => uses_key(def, left.get())
            && uses_key(def, right.get()),
        Expr::Call { function: _, args } => use_key(def, args),
    }
}

// Whether arguments use only columns of the sorting key.
#[cycle(walk)]
#[tactic(auto, using(crate::proofs::MergeBlindLaws::use_laws))]
fn use_key(def: &TableDef, args: &Args) -> bool
    ensures { result ≡ use_key def.now args.now }
{
    match args {
        Args::End => true,
        Args::More(first, rest) => uses_key(def, first.get()) && use_key(def, rest.get()),
    }
}

// Whether a name is that of a column of the sorting key.
fn is_key(def: &TableDef, name: &[u8]) -> bool
    ensures { result ≡ is_key def.now name.now }
{
    match place(def.columns.as_slice(), name) {
        Some(place) => is_among(def.key.as_slice(), place),
        None => false,
    }
}

// Whether a place is one of some.
fn is_among(places: &[u32], place: usize) -> bool
    ensures { result ≡ is_among places.now place }
{
    places.iter().any(|other| *other as usize == place)
}
