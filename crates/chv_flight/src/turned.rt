// What a turn answers.

/// Whether a turn did something.
#[derive(Clone, Copy, Debug, PartialEq, Eq)]
pub enum Turned {
    /// The client made a delivery, or one of its statements was taken.
    Moved,
    /// The client has neither statement nor delivery left.
    Idle,
}
