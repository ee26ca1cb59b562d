// Laws of normal forms.
ghost use Rattle.std.specs.Prelude.{◌≡◌, ◌≤◌, ◌<◌, ◌^◌, ◌++◌, Bool, List, ℕ, length, map};
ghost use Rattle.std.specs.List.{filter};
ghost use Rattle.std.specs.List.Sorted.{IsPermutation, IsSortedBy};
ghost use Rattle.chv_agg.specs.OfKinds.{AllAreOf};
ghost use Rattle.chv_agg.specs.Pairs.{grouped_by, items_under};
ghost use Rattle.chv_agg.specs.Sets.{SetsWithin};
ghost use Rattle.chv_types.specs.Members.{Rises};
ghost use Rattle.chv_types.specs.Order.{row_cmp};
ghost use Rattle.chv_types.specs.declared.kind.Kind.{Kind};
ghost use Rattle.chv_types.specs.declared.table.Engine.{Engine as SomeEngine};
ghost use Rattle.chv_types.specs.declared.value.Value.{Value};
ghost use Rattle.chv_merge.specs.NormalForms.{aggregated, before, key_below, merge_all, normal_form, normal_form_of, values_at};

/// A normal form has the rows of which it is made, in order, goes by the rows alone and not by their order, and may be
/// taken of a part of the rows first.
pub fn law_normal_form()
    ensures rows { (key : List ℕ) (rows : List (List Value)) → IsPermutation (normal_form key rows) rows }
    ensures sorted { (key : List ℕ) (rows : List (List Value)) → IsSortedBy (key_below key) (normal_form key rows) }
    ensures bag { (key : List ℕ) (a b : List (List Value)) → IsPermutation a b → normal_form key a ≡ normal_form key b }
    ensures join { (key : List ℕ) (a b : List (List Value)) → normal_form key (a ++ b) ≡ normal_form key (normal_form key a ++ normal_form key b) }
{}

/// What a table of any engine keeps of rows goes by the rows and not by their order, thus also by the rows of each key; it may be
/// taken of a part of the rows first, and of those whose key passes a test; it stands in the order of keys, is of the kinds of the
/// rows, where joint sets are not too large to have bytes, and has no more rows.
pub fn law_normal_form_of()
    ensures bag { (engine : SomeEngine) (kinds : List Kind) (key : List ℕ) (a b : List (List Value)) → IsPermutation a b
        → normal_form_of engine kinds key a ≡ normal_form_of engine kinds key b }
    ensures join { (engine : SomeEngine) (kinds : List Kind) (key : List ℕ) (a b : List (List Value))
        → normal_form_of engine kinds key (a ++ b) ≡ normal_form_of engine kinds key (normal_form_of engine kinds key a ++ normal_form_of engine kinds key b) }
    ensures key { (engine : SomeEngine) (kinds : List Kind) (key : List ℕ) (a b : List (List Value))
        → ((values : List Value) → items_under row_cmp (values_at key) values a ≡ items_under row_cmp (values_at key) values b)
        → normal_form_of engine kinds key a ≡ normal_form_of engine kinds key b }
    ensures filter { (engine : SomeEngine) (kinds : List Kind) (key : List ℕ) (keep : List Value → Bool) (rows : List (List Value))
        → filter (λ row. keep (values_at key row)) (normal_form_of engine kinds key rows) ≡ normal_form_of engine kinds key (filter (λ row. keep (values_at key row)) rows) }
    ensures order { (engine : SomeEngine) (kinds : List Kind) (key : List ℕ) (rows : List (List Value)) → IsSortedBy (before key) (normal_form_of engine kinds key rows) }
    ensures kinds { (engine : SomeEngine) (kinds : List Kind) (key : List ℕ) (most : ℕ) (rows : List (List Value)) → most < 2 ^ 64 → AllAreOf kinds rows
        → (engine ≡ SomeEngine.Aggregating → SetsWithin most kinds rows) → AllAreOf kinds (normal_form_of engine kinds key rows) }
    ensures most { (engine : SomeEngine) (kinds : List Kind) (key : List ℕ) (rows : List (List Value)) → length (normal_form_of engine kinds key rows) ≤ length rows }
{}

/// An aggregating table keeps one row for each key of the rows, in the order of keys, which is the merge of the rows of that key.
pub fn law_aggregated()
    ensures keys { (kinds : List Kind) (key : List ℕ) (rows : List (List Value)) → Rises row_cmp (map (values_at key) (aggregated kinds key rows)) }
    ensures rows { (kinds : List Kind) (key : List ℕ) (rows : List (List Value))
        → aggregated kinds key rows ≡ map (λ pair. pair.1) (grouped_by row_cmp (values_at key) (merge_all kinds key) rows) }
{}
