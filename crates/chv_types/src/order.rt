// The order of values.
ghost use Rattle.std.specs.Prelude.{◌≡◌, ◌++◌, ℕ, ℤ, Bool, List};
ghost use Rattle.std.specs.Cmp.{IsTotalOrder};
ghost use Rattle.std.specs.Cmp.Lexicographic.{slice_cmp};
ghost use Rattle.std.specs.FinMap.{IsAntisymmetric};
ghost use Rattle.std.specs.List.Sorted.{IsPermutation};
ghost use Rattle.std.specs.Ordering.{nat_cmp, int_cmp, bool_cmp};
ghost use Rattle.chv_types.specs.Members.{members, Rises, HaveSame};
ghost use Rattle.chv_types.specs.Order.{value_cmp};
ghost use Rattle.chv_types.specs.Values.{seen_value};
ghost use Rattle.chv_types.specs.declared.value.Value.{Value as SomeValue};

use crate::{Seen, Value};
use std::cmp::Ordering;

/// How two values stand to each other: within a kind numbers by value, false before true, texts and states by their bytes,
/// a beginning before what it begins. Numbers stand before truths, truths before texts, and states last.
pub fn compare(a: &Value, b: &Value) -> Ordering
    ensures { result ≡ value_cmp a.now b.now }
{
    compare_seen(a.seen(), b.seen())
}

/// The same order of values that are borrowed.
#[tactic(auto, unfolding(crate::specs::Order::value_cmp), using(crate::proofs::OrderLemmas::value_laws))]
pub fn compare_seen(a: Seen<'_>, b: Seen<'_>) -> Ordering
    ensures { result ≡ value_cmp (seen_value a.entry) (seen_value b.entry) }
{
    match a {
        Seen::Whole(a) => compare_whole(a, b),
        Seen::Truth(a) => compare_truth(a, b),
        Seen::Text(a) => match b {
            Seen::Text(b) => a.cmp(b),
            Seen::State(_) => Ordering::Less,
            _ => Ordering::Greater,
        },
        Seen::State(a) => match b {
            Seen::State(b) => a.cmp(b),
            _ => Ordering::Greater,
        },
    }
}

// How a number stands to a value.
#[tactic(auto, unfolding(crate::specs::Order::value_cmp), using(crate::proofs::OrderLemmas::value_laws))]
fn compare_whole(a: i128, b: Seen<'_>) -> Ordering
    ensures { result ≡ value_cmp (Value.Whole a) (seen_value b.entry) }
{
    match b {
        Seen::Whole(b) => a.cmp(&b),
        _ => Ordering::Less,
    }
}

// How a truth stands to a value.
#[tactic(auto, unfolding(crate::specs::Order::value_cmp), using(crate::proofs::OrderLemmas::value_laws))]
fn compare_truth(a: bool, b: Seen<'_>) -> Ordering
    ensures { result ≡ value_cmp (Value.Truth a) (seen_value b.entry) }
{
    match b {
        Seen::Whole(_) => Ordering::Greater,
        Seen::Truth(b) => a.cmp(&b),
        _ => Ordering::Less,
    }
}

/// The order of values is total, and values that it does not tell apart are identical.
pub fn law_order()
    ensures total { IsTotalOrder value_cmp }
    ensures identical { IsAntisymmetric value_cmp }
{}

/// Within a kind numbers are ordered by value, false before true, texts and states by their bytes.
pub fn law_order_within_kinds()
    ensures whole { (m n : ℤ) → value_cmp (Value.Whole m) (Value.Whole n) ≡ int_cmp m n }
    ensures truth { (a b : Bool) → value_cmp (Value.Truth a) (Value.Truth b) ≡ bool_cmp a b }
    ensures text { (a b : List ℕ) → value_cmp (Value.Text a) (Value.Text b) ≡ slice_cmp nat_cmp a b }
    ensures state { (a b : List ℕ) → value_cmp (Value.State a) (Value.State b) ≡ slice_cmp nat_cmp a b }
{}

/// What a list has, each once and in order: it has what the list has, is all that has it so, goes by what is there and
/// not by how often or in which order, and may be taken of parts first.
pub fn law_members()
    ensures rises { (xs : List SomeValue) → Rises value_cmp (members value_cmp xs) }
    ensures same { (xs : List SomeValue) → HaveSame xs (members value_cmp xs) }
    ensures unique { (xs ys : List SomeValue) → Rises value_cmp ys → HaveSame xs ys → ys ≡ members value_cmp xs }
    ensures bag { (xs ys : List SomeValue) → IsPermutation xs ys → members value_cmp xs ≡ members value_cmp ys }
    ensures join { (xs ys : List SomeValue) → members value_cmp (members value_cmp xs ++ members value_cmp ys) ≡ members value_cmp (xs ++ ys) }
{}

impl PartialEq for Value {
    ghost use Rattle.std.specs.Cmp.{partial_equiv_from_equiv, eq_by_cmp_equiv};
    ghost use Rattle.std.specs.Ordering.{eq_by_cmp};
    ghost use Rattle.chv_types.specs.Order.{value_cmp};
    ghost use Rattle.chv_types.specs.OrderLaws.{value_cmp_total};

    ghost eq = { eq_by_cmp value_cmp };

    ghost laws = { partial_equiv_from_equiv (eq_by_cmp_equiv value_cmp_total) };

    fn eq(&self, other: &Value) -> bool {
        compare(self, other).is_eq()
    }
}

impl Eq for Value {
    ghost use Rattle.std.specs.Cmp.{eq_by_cmp_equiv};
    ghost use Rattle.chv_types.specs.OrderLaws.{value_cmp_total};

    ghost laws = { eq_by_cmp_equiv value_cmp_total };
}

impl PartialOrd for Value {
    ghost use Rattle.std.specs.Cmp.{partial_order_from_total};
    ghost use Rattle.std.specs.Ordering.{as_partial_cmp};
    ghost use Rattle.chv_types.specs.Order.{value_cmp};
    ghost use Rattle.chv_types.specs.OrderLaws.{value_cmp_total};

    ghost partial_cmp = { as_partial_cmp value_cmp };

    ghost laws = { partial_order_from_total value_cmp_total };

    fn partial_cmp(&self, other: &Value) -> Option<Ordering> {
        Some(compare(self, other))
    }
}

impl Ord for Value {
    ghost use Rattle.std.proofs.Common.{refl};
    ghost use Rattle.chv_types.specs.Order.{value_cmp};
    ghost use Rattle.chv_types.specs.OrderLaws.{value_cmp_total};

    ghost cmp = { value_cmp };

    ghost total = { value_cmp_total };

    ghost matches_partial_cmp = { λ a b. refl };

    ghost matches_eq = { λ a b. refl };

    fn cmp(&self, other: &Value) -> Ordering {
        compare(self, other)
    }
}
