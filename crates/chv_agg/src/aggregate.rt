// Aggregate functions.
ghost use Rattle.std.specs.Prelude.{◌≡◌, ◌≢◌, ◌++◌, ℕ, List, drop, IfOk, IfSome, IsNone, OnOk, OnErr};
ghost use Rattle.std.specs.List.{All};
ghost use Rattle.chv_agg.specs.AggregateLaws.{AggregateLaws, SpellingLaws, state_from};
ghost use Rattle.chv_bytes.specs.Places.{StandsAt};
ghost use Rattle.chv_types.specs.Fits.{IsOfScalar};
ghost use Rattle.chv_types.specs.Values.{seen_value};
ghost use Rattle.chv_types.specs.declared.kind.Scalar.{Scalar as SomeScalar};
ghost use Rattle.chv_types.specs.declared.value.Value.{Value as SomeValue};

use chv_types::{Scalar, Seen, Value};
use std::alloc::{AllocError, Global};

/// An aggregate function: states that stand for lists of values, and are joined in any order.
pub trait Aggregate {
    /// What stands for a list of values.
    type State: Drop;

    /// The number of the function.
    const TAG: u8;

    ghost TAG: { ℕ };

    // A state is one over values of the kind.
    ghost fits: { SomeScalar → Self.State → Type 0 };

    // A state has fewer than 2^64 values, where it keeps values.
    ghost counted: { Self.State → Type 0 };

    // A state over values of the kind in bytes.
    ghost spelling: { SomeScalar → Self.State → List ℕ };

    // The state of no values.
    ghost none: { Self.State };

    // The state of one value.
    ghost one: { SomeValue → Self.State };

    // Two states as one.
    ghost join: { Self.State → Self.State → Self.State };

    // The value of a state over values of the kind.
    ghost value_of: { SomeScalar → Self.State → SomeValue };

    // The value of a list of values of the kind.
    ghost result_of: { SomeScalar → List SomeValue → SomeValue };

    /// The state of no values.
    fn unit(alloc: Global) -> Self::State
        ensures { result ≡ none };

    /// Takes one value more.
    fn add(alloc: Global, state: &mut Self::State, input: Seen<'_>) -> Result<(), AllocError>
        ensures added { OnOk result (state.new ≡ join state.old (one (seen_value input.entry))) }
        ensures err { OnErr result (state.new ≡ state.old) };

    /// Takes the values of another state.
    fn merge(alloc: Global, state: &mut Self::State, other: &Self::State) -> Result<(), AllocError>
        ensures merged { OnOk result (state.new ≡ join state.old other.now) }
        ensures err { OnErr result (state.new ≡ state.old) };

    /// The value of a state over values of a kind.
    fn finish(alloc: Global, state: &Self::State, arg: Scalar) -> Result<Value, AllocError>
        ensures { IfOk result (λ value. value ≡ value_of arg state.now) };

    /// Puts a state over values of a kind behind `out`.
    fn spell(state: &Self::State, arg: Scalar, out: &mut Vec<u8>) -> Result<(), AllocError>
        requires fits { fits arg state.now }
        ensures { OnOk result (out.new.items ≡ out.old.items ++ spelling arg state.now) };

    /// The state over values of a kind whose bytes begin at `at`, and the place behind it. None where no state's do.
    fn read(
        alloc: Global,
        bytes: &[u8],
        at: usize,
        arg: Scalar,
    ) -> Result<Option<(Self::State, usize)>, AllocError>
        ensures fits { IfOk result (λ read. IfSome read (λ r. fits arg r.0)) }
        ensures counted { IfOk result (λ read. IfSome read (λ r. counted r.0)) }
        ensures found { IfOk result (λ read. IfSome read (λ r. StandsAt (spelling arg r.0) bytes.now at r.1)) }
        ensures none { IfOk result (λ read. IsNone read → (state : Self.State) (rest : List ℕ) → fits arg state → counted state → drop at bytes.now ≢ spelling arg state ++ rest) };

    ghost laws: { AggregateLaws fits none one join };

    ghost spelled: { SpellingLaws fits counted spelling };

    ghost valued: { (arg : SomeScalar) (values : List SomeValue) → All (IsOfScalar arg) values → value_of arg (state_from none one join values) ≡ result_of arg values };
}
