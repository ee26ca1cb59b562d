// What holds of all states in bytes, as laws on the definitions.
ghost use Rattle.std.specs.Prelude.{◌≡◌, ◌<◌, ◌+◌, ◌^◌, ◌++◌, ℕ, List, Some, length};
ghost use Rattle.chv_agg.specs.StateBytes.{join_bytes, state_bytes, state_front, state_in};
ghost use Rattle.chv_agg.specs.States.{FitsState, IsOver, join, set_size, unit_of};
ghost use Rattle.chv_agg.specs.declared.any_agg.AnyAgg.{AnyAgg as SomeState};

use chv_types::{AggName, Scalar};

/// A state in bytes reads back, whatever follows it, and bytes begin with one state of a function over values of a kind at most.
pub fn law_state_reads_back()
    ensures front { (agg : AggName) (arg : Scalar) (state : SomeState) (rest : List ℕ) → FitsState agg arg state
        → state_front agg arg (state_bytes arg state ++ rest) ≡ Some (state, rest) }
    ensures one { (agg : AggName) (arg : Scalar) (a b : SomeState) (x y : List ℕ) → FitsState agg arg a → FitsState agg arg b
        → state_bytes arg a ++ x ≡ state_bytes arg b ++ y → (a ≡ b) × (x ≡ y) }
{}

/// What is read in front of bytes is a state of the function over values of the kind, whose bytes are those that were read.
pub fn law_state_front()
    ensures { (agg : AggName) (arg : Scalar) (bytes rest : List ℕ) (state : SomeState) → state_front agg arg bytes ≡ Some (state, rest)
        → FitsState agg arg state × (bytes ≡ state_bytes arg state ++ rest) }
{}

/// The bytes of a state stand for the state, however many values its set has, and bytes that are no state's stand for the state of
/// no values.
pub fn law_state_in()
    ensures spelled { (agg : AggName) (arg : Scalar) (state : SomeState) → IsOver agg arg state → state_in agg arg (state_bytes arg state) ≡ state }
    ensures none { (agg : AggName) (arg : Scalar) (bytes : List ℕ) → ((state : SomeState) → IsOver agg arg state → bytes ≡ state_bytes arg state → ⊥)
        → state_in agg arg bytes ≡ unit_of agg arg }
{}

/// Bytes stand for a state of the function over values of the kind, whatever they are; the state fits where its set has fewer than
/// 2^64 values, as it has where they are fewer than 2^64 bytes.
pub fn law_state_in_fits()
    ensures over { (agg : AggName) (arg : Scalar) (bytes : List ℕ) → IsOver agg arg (state_in agg arg bytes) }
    ensures few { (agg : AggName) (arg : Scalar) (bytes : List ℕ) → set_size (state_in agg arg bytes) < 2 ^ 64 → FitsState agg arg (state_in agg arg bytes) }
    ensures fits { (agg : AggName) (arg : Scalar) (bytes : List ℕ) → length bytes < 2 ^ 64 → FitsState agg arg (state_in agg arg bytes) }
{}

/// States in bytes are joined in any order, and it does not matter which of three are joined first. What two are joined to fits where
/// there are fewer than 2^64 bytes of both.
pub fn law_join_bytes()
    ensures fits { (agg : AggName) (arg : Scalar) (a b : List ℕ) → length a + length b < 2 ^ 64 → FitsState agg arg (join (state_in agg arg a) (state_in agg arg b)) }
    ensures joined { (agg : AggName) (arg : Scalar) (a b : List ℕ) → state_in agg arg (join_bytes agg arg a b) ≡ join (state_in agg arg a) (state_in agg arg b) }
    ensures commutative { (agg : AggName) (arg : Scalar) (a b : List ℕ) → join_bytes agg arg a b ≡ join_bytes agg arg b a }
    ensures associative { (agg : AggName) (arg : Scalar) (a b c : List ℕ) → join_bytes agg arg (join_bytes agg arg a b) c ≡ join_bytes agg arg a (join_bytes agg arg b c) }
{}
