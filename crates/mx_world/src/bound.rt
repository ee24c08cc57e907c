//! What a name is bound to, lent.
use mx_code::compiled::Compiled;
use mx_edit::reference::RefValue;
use mx_value::node::Path;

/// Cells that a path binds to a name.
#[derive(Clone, Copy)]
pub struct BoundCells<'a> {
    pub formula: &'a Compiled,
    pub allow_none: bool,
}

/// A reference that a path binds to a name, as it was written, and the path of the space that defines it.
#[derive(Clone, Copy)]
pub struct BoundReference<'a> {
    pub value: &'a RefValue,
    pub owner: &'a Path,
}

/// What a path binds a name to.
#[derive(Clone, Copy)]
pub enum Bound<'a> {
    CellsHere,
    Child,
    Ref(BoundReference<'a>),
    Missing,
}
