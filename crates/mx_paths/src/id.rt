//! Numbers of static paths.

/// A static path of a table: its place in the order of the walk, from 0.
#[derive(Clone, Copy, PartialEq, Eq, PartialOrd, Ord, Hash, Debug)]
pub struct PathId(pub u32);
