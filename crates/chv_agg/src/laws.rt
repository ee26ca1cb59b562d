// Laws of states.
ghost use Rattle.std.specs.Prelude.{◌≡◌, List};
ghost use Rattle.std.specs.List.{All};
ghost use Rattle.std.specs.List.Sorted.{IsPermutation};
ghost use Rattle.chv_agg.specs.AggregateLaws.{Mixture, mixed, state_from, values_of};
ghost use Rattle.chv_agg.specs.Lists.{aggregate_of};
ghost use Rattle.chv_agg.specs.States.{FitsState, IsOver, join, one_like, state_of, unit_of, value_of};
ghost use Rattle.chv_agg.specs.Tallies.{IsCounted};
ghost use Rattle.chv_agg.specs.declared.any_agg.AnyAgg.{AnyAgg as SomeState};
ghost use Rattle.chv_types.specs.Fits.{IsOfScalar};
ghost use Rattle.chv_types.specs.declared.aggregate.AggName.{AggName as SomeAgg};
ghost use Rattle.chv_types.specs.declared.kind.Scalar.{Scalar as SomeScalar};
ghost use Rattle.chv_types.specs.declared.value.Value.{Value as SomeValue};

use crate::Aggregate;

/// All states are joined in any order.
pub fn law_join_order()
    ensures assoc { (a b c : SomeState) → join (join a b) c ≡ join a (join b c) }
    ensures comm { (a b : SomeState) → join a b ≡ join b a }
{}

/// The state of no values changes none of its function, and states of a function over values of a kind are joined to such a
/// state; with fewer than 2^64 different values it fits.
pub fn law_join_states()
    ensures unit { (agg : SomeAgg) (arg : SomeScalar) (state : SomeState) → IsOver agg arg state → join (unit_of agg arg) state ≡ state }
    ensures closed { (agg : SomeAgg) (arg : SomeScalar) (a b : SomeState) → IsOver agg arg a → IsOver agg arg b → IsOver agg arg (join a b) }
    ensures over { (agg : SomeAgg) (arg : SomeScalar) (state : SomeState) → FitsState agg arg state → IsOver agg arg state }
    ensures counted { (agg : SomeAgg) (arg : SomeScalar) (state : SomeState) → IsCounted state → IsOver agg arg state → FitsState agg arg state }
{}

/// The value of the state of a list of values is the function over the list, and goes by what the list has, not by its order.
pub fn law_state_of_list()
    ensures value { (agg : SomeAgg) (arg : SomeScalar) (values : List SomeValue) → All (IsOfScalar arg) values → value_of arg (state_of agg arg values) ≡ aggregate_of agg arg values }
    ensures bag { (agg : SomeAgg) (arg : SomeScalar) (xs ys : List SomeValue) → IsPermutation xs ys → state_of agg arg xs ≡ state_of agg arg ys }
{}

/// A state of any function that values were added to and states were merged into stands for the list of all these values, and
/// goes by what the list has, not by its order.
pub fn law_mixtures<A: Aggregate>()
    ensures bag { (xs ys : List SomeValue) → IsPermutation xs ys → state_from A.none A.one A.join xs ≡ state_from A.none A.one A.join ys }
    ensures mixed { (arg : SomeScalar) (mixture : Mixture) → All (IsOfScalar arg) (values_of mixture) → mixed A.none A.one A.join mixture ≡ state_from A.none A.one A.join (values_of mixture) }
{}

/// So does a state that is one of all functions.
pub fn law_mixed_states()
    ensures { (agg : SomeAgg) (arg : SomeScalar) (mixture : Mixture) → All (IsOfScalar arg) (values_of mixture) → mixed (unit_of agg arg) (one_like (unit_of agg arg)) join mixture ≡ state_of agg arg (values_of mixture) }
{}
