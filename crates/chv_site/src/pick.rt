// Which image a crash leaves.

/// Which of the images that a crash may leave is taken.
#[derive(Clone, Copy, Debug, PartialEq, Eq)]
pub enum Pick {
    /// Each file as at its last sync.
    Old,
    /// Each file as it reads.
    New,
    /// Each file at its greatest length, with this byte in every place that a crash may change.
    Torn { byte: u8 },
}
