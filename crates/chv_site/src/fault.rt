// The one error of the outside.

/// A call of a source or a site failed, and its count of faults rose.
#[derive(Clone, Copy, Debug, PartialEq, Eq)]
pub struct Failed;
