// Laws of pairs of a key and a value, those of one key as one.
ghost use Rattle.std.specs.Prelude.{◌≡◌, ◌++◌, List, Bool, map};
ghost use Rattle.std.specs.List.{flat_map, fold};
ghost use Rattle.std.specs.Cmp.{IsTotalOrder};
ghost use Rattle.std.specs.FinMap.{IsAntisymmetric};
ghost use Rattle.std.specs.List.Sorted.{IsPermutation};
ghost use Rattle.std.specs.declared.cmp.Ordering.{Ordering as Order};
ghost use Rattle.chv_agg.specs.Pairs.{IsAssociative, IsCommutative, IsStepwise, IsThrough, collapse, each_by_key, grouped_by, join_each, join_found, joint, kept, pair_keys, recast};
ghost use Rattle.chv_types.specs.Members.{members, Rises};

/// Collapsed pairs have the keys of the pairs, each once and in order, and with each key the value that joins all of its
/// values as they come. No other pairs whose keys rise have these.
pub fn law_pairs<K, V>()
    ensures keys { (cmp : K → K → Order) (join : V → V → V) (pairs : List (K × V)) → pair_keys (collapse cmp join pairs) ≡ members cmp (pair_keys pairs) }
    ensures values { (cmp : K → K → Order) (join : V → V → V) → IsTotalOrder cmp → IsAntisymmetric cmp → IsAssociative join
        → (key : K) (pairs : List (K × V)) → joint cmp join key (collapse cmp join pairs) ≡ joint cmp join key pairs }
    ensures unique { (cmp : K → K → Order) (join : V → V → V) → IsTotalOrder cmp → IsAntisymmetric cmp → IsAssociative join
        → (pairs others : List (K × V)) → Rises cmp (pair_keys others) → ((key : K) → joint cmp join key others ≡ joint cmp join key pairs)
        → others ≡ collapse cmp join pairs }
{}

/// Pairs may be collapsed in parts first. Where values join in any order, collapsing goes by the pairs and not by their
/// order. A test of keys may come before or after.
pub fn law_collapsed_parts<K, V>()
    ensures join { (cmp : K → K → Order) (join : V → V → V) → IsTotalOrder cmp → IsAntisymmetric cmp → IsAssociative join
        → (a b : List (K × V)) → collapse cmp join (collapse cmp join a ++ collapse cmp join b) ≡ collapse cmp join (a ++ b) }
    ensures parts { (cmp : K → K → Order) (join : V → V → V) → IsTotalOrder cmp → IsAntisymmetric cmp → IsAssociative join
        → (parts : List (List (K × V))) → collapse cmp join (flat_map (collapse cmp join) parts) ≡ collapse cmp join (flat_map (λ part. part) parts) }
    ensures bag { (cmp : K → K → Order) (join : V → V → V) → IsTotalOrder cmp → IsAntisymmetric cmp → IsAssociative join → IsCommutative join
        → (a b : List (K × V)) → IsPermutation a b → collapse cmp join a ≡ collapse cmp join b }
    ensures filter { (cmp : K → K → Order) (join : V → V → V) → IsTotalOrder cmp → IsAntisymmetric cmp → IsAssociative join
        → (keep : K → Bool) (pairs : List (K × V)) → kept keep (collapse cmp join pairs) ≡ collapse cmp join (kept keep pairs) }
{}

/// A function that goes through two joinings may be applied before pairs are collapsed or after.
pub fn law_mapped_pairs<K, V, W>()
    ensures map { (cmp : K → K → Order) (join : V → V → V) (other : W → W → W) (f : V → W) → IsThrough join other f
        → (pairs : List (K × V)) → recast (λ key. key) f (collapse cmp join pairs) ≡ collapse cmp other (recast (λ key. key) f pairs) }
{}

/// Pairs that get other keys, maybe one for several, and other values, may be collapsed by the first keys before.
pub fn law_recast_pairs<K, L, V, W>()
    ensures recast { (fine : K → K → Order) (cmp : L → L → Order) (join : V → V → V) (other : W → W → W) (g : K → L) (f : V → W)
        → IsAntisymmetric fine → IsTotalOrder cmp → IsAntisymmetric cmp → IsAssociative other → IsCommutative other → IsThrough join other f
        → (pairs : List (K × V)) → collapse cmp other (recast g f (collapse fine join pairs)) ≡ collapse cmp other (recast g f pairs) }
{}

/// Items that are grouped by a key are the results of the items one by one, collapsed, where the function of a group is
/// stepwise.
pub fn law_grouped_items<A, K, V>()
    ensures group { (cmp : K → K → Order) (join : V → V → V) (key_of : A → K) (f : List A → V)
        → IsTotalOrder cmp → IsAntisymmetric cmp → IsAssociative join → IsStepwise join f
        → (items : List A) → collapse cmp join (each_by_key key_of f items) ≡ grouped_by cmp key_of f items }
{}

/// Joining one after the other is stepwise, behind a unit that joined with itself is itself; and so are several results
/// that are stepwise, place by place.
pub fn law_stepwise<A, C, V>()
    ensures fold { (join : V → V → V) (unit : V) (f : A → V) → IsAssociative join → IsCommutative join → join unit unit ≡ unit
        → IsStepwise join (λ (items : List A). fold join unit (map f items)) }
    ensures each { (join : V → V → V) (f : C → List A → V) → ((call : C) → IsStepwise join (f call))
        → (calls : List C) → IsStepwise (join_each join) (λ (items : List A). map (λ call. f call items) calls) }
{}

/// Joining lists place by place keeps to what the joining of values keeps to.
pub fn law_joined_lists<V>()
    ensures assoc { (join : V → V → V) → IsAssociative join → IsAssociative (join_each join) }
    ensures comm { (join : V → V → V) → IsCommutative join → IsCommutative (join_each join) }
{}
