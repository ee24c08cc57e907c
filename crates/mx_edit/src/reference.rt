//! The values of references.
ghost use Rattle.std.specs.Prelude.{◌≡◌, IfOk};

use mx_list::shared::Shared;
use mx_value::label::Label;
use mx_value::node::Path;
use mx_value::value::Value;
use std::alloc::AllocError;

/// What a reference holds, as it was written.
#[derive(PartialEq, Eq, Drop)]
pub enum RefValue {
    /// A plain value.
    Plain(Shared<Value>),
    /// The table of a name.
    Table(Label),
    /// The space at a path, or the cells that its last name stands for. One that is not `fixed` and lies within the
    /// space that defines the reference is taken relative to the space that the look-up is made in.
    Target { path: Path, fixed: bool },
}

impl RefValue {
    /// An equal value, which shares all that it holds.
    pub fn copy(&self) -> Result<RefValue, AllocError>
        ensures { IfOk result (λ c. c ≡ self.now) }
    {
        match self {
            RefValue::Plain(value) => Ok(RefValue::Plain(value.copy()?)),
            RefValue::Table(name) => Ok(RefValue::Table(name.copy()?)),
            RefValue::Target { path, fixed } => Ok(RefValue::Target {
                path: path.copy()?,
                fixed: *fixed,
            }),
        }
    }
}
