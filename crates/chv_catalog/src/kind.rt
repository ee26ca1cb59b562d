// Kinds of columns.
ghost use Rattle.std.specs.Prelude.{◌≡◌};
ghost use Rattle.chv_catalog.specs.Checks.{is_state};

use chv_types::Kind;

/// Whether a kind is one of states.
pub fn is_state(kind: Kind) -> bool
    ensures { result ≡ is_state kind }
{
    match kind {
        Kind::Plain(_) => false,
        Kind::State(..) => true,
    }
}
