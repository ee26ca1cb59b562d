// The order in which the pieces of a script are answered: client by client, each in the order of the script.
ghost use Rattle.std.specs.Prelude.{◌≡◌, ◌<◌, ◌≤◌, ◌==◌, ◌∷◌, [], length, drop, MatchOption, IfSome};
ghost use Rattle.std.specs.List.{position, Contains};
ghost use Rattle.chv_history.specs.Script.{of_client, left_at};

use chv_lex::Piece;

// The client that is answered last.
const LAST_CLIENT: u8 = 15;

/// The piece that is answered next, when those of a client are answered up to a place, and the place behind it.
pub fn next_piece(pieces: &[Piece], client: u8, place: usize) -> Option<(Piece, usize)>
    requires client { client < 16 }
    requires place { place ≤ length pieces.now }
    ensures next { MatchOption result (left_at client place pieces.now ≡ []) (λ next. left_at client place pieces.now ≡ next.0 ∷ left_at next.0.client next.1 pieces.now) }
    ensures within { IfSome result (λ next. Contains pieces.now next.0 × (next.1 ≤ length pieces.now)) }
{
    let mut current = client;
    let mut from = place;
    'clients: loop {
        if let Some(next) = next_of(pieces, current, from) {
            return Some(next);
        }
        if current == LAST_CLIENT {
            return None;
        }
        current += 1;
        from = 0;
    }
}

/// The next piece of one client from a place on, and the place behind it.
pub fn next_of(pieces: &[Piece], client: u8, place: usize) -> Option<(Piece, usize)>
    requires { place ≤ length pieces.now }
    ensures next { MatchOption result (of_client (drop place pieces.now) client ≡ []) (λ next. of_client (drop place pieces.now) client ≡ next.0 ∷ of_client (drop next.1 pieces.now) client) }
    ensures client { IfSome result (λ next. next.0.client ≡ client) }
    ensures later { IfSome result (λ next. place < next.1) }
    ensures within { IfSome result (λ next. Contains pieces.now next.0 × (next.1 ≤ length pieces.now)) }
{
    match first_of(&pieces[place..], client) {
        Some(next) => Some((pieces[place + next], place + next + 1)),
        None => None,
    }
}

// It goes over all pieces that are left: clients are few, and a list for each would take memory.
fn first_of(pieces: &[Piece], client: u8) -> Option<usize>
    ensures { result ≡ position (λ piece. piece.client == client) pieces.now }
{
    pieces.iter().position(|piece| piece.client == client)
}
