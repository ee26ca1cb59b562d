// Runs of parts.

/// Adjacent parts of one level, which become one.
#[derive(Clone, Copy, Debug, PartialEq, Eq)]
pub struct Run {
    /// The place of the first in the layout, counted from 0.
    pub from: usize,
    /// How many there are: 8.
    pub count: usize,
    /// The level of each.
    pub level: u64,
}
