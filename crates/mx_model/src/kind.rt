//! What a space has itself under a name.

/// What a space has itself under a name.
#[derive(Clone, Copy, PartialEq, Eq, Debug)]
pub enum Kind {
    Cells,
    Reference,
    /// A defined child.
    Child,
}
