//! The values of references.
ghost use Rattle.std.specs.Prelude.{◌≡◌, ℕ};
ghost use Rattle.mx_value.specs.declared.value.Value.{Value as Values};
ghost use Rattle.mx_model.specs.Keys.{key_result};
ghost use Rattle.mx_code_law.specs.States.{Home, Next};
ghost use Rattle.mx_code_law.specs.Finding.{reference_next};
ghost use Rattle.mx_lookup.specs.Goes.{Goes};

use crate::addresses::relative;
use crate::targets::{seek_target, target_of};
use mx_edit::reference::RefValue;
use mx_ops::op::OpRefusal;
use mx_read_set::seen::Seen;
use mx_value::label::Label;
use mx_value::namespace::Namespace;
use mx_value::value::Value;
use mx_world::world::World;
use std::alloc::Global;

/// A reference as it was written, by the space that defines it. One of the model has no names here.
#[derive(Clone, Copy)]
pub struct Written<'a> {
    pub value: &'a RefValue,
    pub owner: &'a [Label],
}

/// The value of a reference that was found in a namespace.
pub fn seek_reference(
    alloc: Global,
    world: &World,
    written: Written<'_>,
    space: &Namespace,
    seen: &mut Seen,
) -> Result<Value, OpRefusal>
    ensures { (h : Home) (line : ℕ) (to : Values → Next) →
        Goes (key_result world.now) result h line to
        (reference_next h written.entry.value.now written.entry.owner.now space.now line to)
        seen.old seen.new }
{
    match written.value {
        RefValue::Plain(value) => return Ok(value.get().copy(alloc)?),
        RefValue::Table(name) => return Ok(Value::Table(name.copy()?)),
        RefValue::Target { path, fixed } => {
            let names = relative(written.owner, *fixed, path.as_slice());
            let target = target_of(alloc, space, path, names)?;
            return seek_target(alloc, world, target, seen);
        }
    }
}
