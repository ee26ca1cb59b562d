// The arguments of a call.
ghost use Rattle.std.specs.Prelude.{List, ◌∷◌};
ghost use Rattle.chv_expr.specs.Bindings.{AreMeant, Means};
ghost use Rattle.chv_expr.specs.Terms.{Term};
ghost use Rattle.chv_types.specs.declared.table.Column.{Column as SomeColumn};

use crate::Bound;

/// Bound arguments. No function takes more than three, so more are not kept.
#[derive(Drop)]
pub enum Arguments {
    None,
    One(Bound),
    Two(Bound, Bound),
    Three(Bound, Bound, Bound),
    More,
}

impl Arguments {
    /// The same with one argument more in front. It takes no memory.
    pub fn behind(self, first: Bound) -> Arguments
        ensures { (columns : List SomeColumn) (term : Term) (terms : List Term)
            → Means columns first term → AreMeant columns self terms → AreMeant columns result (term ∷ terms) }
    {
        match self {
            Arguments::None => Arguments::One(first),
            Arguments::One(a) => Arguments::Two(first, a),
            Arguments::Two(a, b) => Arguments::Three(first, a, b),
            Arguments::Three(..) => Arguments::More,
            Arguments::More => Arguments::More,
        }
    }
}
