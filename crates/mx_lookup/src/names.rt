//! Look-ups of names.
ghost use Rattle.std.specs.Prelude.{◌≡◌, ℕ, option_copied, IfOk};
ghost use Rattle.mx_value.specs.declared.value.Value.{Value as Values};
ghost use Rattle.mx_model.specs.Keys.{key_result};
ghost use Rattle.mx_value.specs.declared.fault.FaultKind.TheVariants.{NoName};
ghost use Rattle.mx_edit.specs.declared.key.Key.{Key};
ghost use Rattle.mx_edit.specs.declared.key.Key.TheVariants as key;
ghost use Rattle.mx_edit.specs.declared.key.KeyResult.{KeyResult};
ghost use Rattle.mx_ops.specs.Names.{builtin_of};
ghost use Rattle.mx_meaning.specs.Namespaces as spec;
ghost use Rattle.mx_meaning.specs.References.{cells_value};
ghost use Rattle.mx_meaning.specs.Lookup.{Callee as Meant, Called};
ghost use Rattle.mx_code_law.specs.States.{Fault, Home, Look, Next};
ghost use Rattle.mx_code_law.specs.Finding.{bound_name_next, builtin_next, global_next, name_next, sought_in_next, space_next};
ghost use Rattle.mx_stack.specs.Callees.{callee_of};
ghost use Rattle.mx_stack.specs.Came.{Continues};
ghost use Rattle.mx_read_set.specs.Seen.{Seen as Readings};
ghost use Rattle.mx_world.specs.Bound.{told_name};
ghost use Rattle.mx_lookup.specs.Goes.{Goes};
ghost use Rattle.mx_lookup.specs.Sought.{found_or};

use crate::addresses::add_name;
use crate::references::{Written, seek_reference};
use crate::targets::space_at;
use mx_edit::key::Key;
use mx_ops::builtin::builtin_of;
use mx_ops::op::OpRefusal;
use mx_read_set::seen::Seen;
use mx_stack::callee::Callee;
use mx_value::fault::FaultKind;
use mx_value::label::Label;
use mx_value::namespace::Namespace;
use mx_value::read::Read;
use mx_value::value::{CellsAt, Value};
use mx_world::bound::{Bound, BoundReference};
use mx_world::world::World;
use std::alloc::{AllocError, Global};

/// The value of a name in an overlay.
fn value_in<'a>(overlay: &'a [(Label, Value)], name: &Label) -> Option<&'a Value>
    ensures { option_copied result ≡ spec.value_in overlay.now name.now }
{
    for (other, value) in overlay {
        if *other == *name {
            return Some(value);
        }
    }
    None
}

/// The reference that the source of a namespace binds a name to, which counts as read.
fn seek_bound_reference(
    alloc: Global,
    world: &World,
    reference: BoundReference<'_>,
    space: &Namespace,
    name: &Label,
    seen: &mut Seen,
) -> Result<Value, OpRefusal>
    ensures { (h : Home) (line : ℕ) (to : Values → Next) (other : Next) →
        Goes (key_result world.now) result h line to
        (bound_name_next h space.now name.now line to other
        (told_name (Bound.Ref reference.entry))) seen.old seen.new }
{
    seen.note(Read::Ref(space.at.copy()?, name.copy()?))?;
    let written = Written {
        value: reference.value,
        owner: reference.owner.as_slice(),
    };
    return seek_reference(alloc, world, written, space, seen);
}

/// The cells of a name in a namespace.
fn cells_here(space: &Namespace, name: &Label) -> Result<Value, AllocError>
    ensures { IfOk result (λ v. v ≡ cells_value space.now.at name.now) }
{
    let space = space.at.copy()?;
    let name = name.copy()?;
    Ok(Value::Cells(CellsAt { space, name }))
}

/// The space of a name in a namespace.
fn child_here(alloc: Global, space: &Namespace, name: &Label) -> Result<Value, OpRefusal>
    ensures { (h : Home) (line : ℕ) (to : Values → Next) →
        Continues result h line to (space_next h (spec.child name.now space.now).at line to) }
{
    space_at(add_name(alloc, space.at.as_slice(), name)?)
}

/// What was found, as that of a name.
fn bound(found: Result<Value, OpRefusal>) -> Result<Option<Value>, OpRefusal>
    ensures { (look : Key → KeyResult) (h : Home) (line : ℕ) (to : Values → Next) (other next : Next) (old new : Readings)
        → Goes look found h line to next old new → Goes look result h line (found_or to other) next old new }
{
    match found {
        Ok(value) => return Ok(Some(value)),
        Err(OpRefusal::Fault(kind)) => return Err(OpRefusal::Fault(kind)),
        Err(OpRefusal::NoMemory) => return Err(OpRefusal::NoMemory),
    }
}

/// What was found, as what may be called.
fn called(found: Result<Value, OpRefusal>) -> Result<Callee, OpRefusal>
    ensures { (look : Key → KeyResult) (h : Home) (line : ℕ) (to : Meant → Next) (next : Next) (old new : Readings)
        → Goes look found h line (λ v. to (Called v)) next old new → Goes look result h line (λ c. to (callee_of c)) next old new }
{
    match found {
        Ok(value) => return Ok(Callee::Called(value)),
        Err(OpRefusal::Fault(kind)) => return Err(OpRefusal::Fault(kind)),
        Err(OpRefusal::NoMemory) => return Err(OpRefusal::NoMemory),
    }
}

/// What a namespace has under a name: the overlay's value first, and then what the source binds.
fn seek_in(
    alloc: Global,
    world: &World,
    space: &Namespace,
    name: &Label,
    seen: &mut Seen,
) -> Result<Option<Value>, OpRefusal>
    ensures { (h : Home) (line : ℕ) (to : Values → Next) (other : Next) →
        Goes (key_result world.now) result h line (found_or to other)
        (sought_in_next h space.now name.now line to other) seen.old seen.new }
{
    if let Some(value) = value_in(space.overlay.as_slice(), name) {
        return Ok(Some(value.copy(alloc)?));
    }
    seen.look(Key::Name(space.source.copy()?, name.copy()?))?;
    match world.name(&space.source, name) {
        Bound::CellsHere => return Ok(Some(cells_here(space, name)?)),
        Bound::Child => return bound(child_here(alloc, space, name)),
        Bound::Ref(found) => {
            return bound(seek_bound_reference(alloc, world, found, space, name, seen));
        }
        Bound::Missing => return Ok(None),
    }
}

/// A function that a formula can always call. NoName comes exactly where the name is that of none.
fn seek_builtin(name: &Label) -> Result<Callee, OpRefusal>
    ensures { (h : Home) (line : ℕ) (to : Meant → Next) →
        Continues result h line (λ c. to (callee_of c))
        (builtin_next h (builtin_of name.now) line to) }
{
    match builtin_of(name.as_slice()) {
        Some(function) => return Ok(Callee::Function(function)),
        None => return Err(OpRefusal::Fault(FaultKind::NoName)),
    }
}

/// A name that a namespace does not bind: a reference of the model, or a function.
fn seek_global(
    alloc: Global,
    world: &World,
    space: &Namespace,
    name: &Label,
    seen: &mut Seen,
) -> Result<Callee, OpRefusal>
    ensures { (h : Home) (line : ℕ) (to : Meant → Next) → h.space ≡ space.now →
        Goes (key_result world.now) result h line (λ c. to (callee_of c))
        (Look (key.Global name.now) (global_next h name.now line to)) seen.old seen.new }
{
    seen.look(Key::Global(name.copy()?))?;
    let Some(value) = world.global(name) else {
        return seek_builtin(name);
    };
    seen.note(Read::Global(name.copy()?))?;
    let written = Written { value, owner: &[] };
    return called(seek_reference(alloc, world, written, space, seen));
}

/// What a name stands for that is no local, where a formula runs in this namespace: a value, or a
/// function that a formula can always call. NoName comes exactly where it stands for nothing.
pub fn seek_name(
    alloc: Global,
    world: &World,
    space: &Namespace,
    name: &Label,
    seen: &mut Seen,
) -> Result<Callee, OpRefusal>
    ensures { (h : Home) (line : ℕ) (to : Meant → Next) → h.space ≡ space.now →
        Goes (key_result world.now) result h line (λ c. to (callee_of c))
        (name_next h name.now line to) seen.old seen.new }
{
    match seek_in(alloc, world, space, name, seen) {
        Ok(Some(value)) => return Ok(Callee::Called(value)),
        Ok(None) => return seek_global(alloc, world, space, name, seen),
        Err(refusal) => return Err(refusal),
    }
}

/// The value of a name through a space that a walk came to. NoName comes exactly where the space
/// has none.
pub fn seek_through(
    alloc: Global,
    world: &World,
    space: &Namespace,
    name: &Label,
    seen: &mut Seen,
) -> Result<Value, OpRefusal>
    ensures { (h : Home) (line : ℕ) (to : Values → Next) →
        Goes (key_result world.now) result h line to
        (sought_in_next h space.now name.now line to (Fault h NoName line)) seen.old seen.new }
{
    match seek_in(alloc, world, space, name, seen) {
        Ok(Some(value)) => return Ok(value),
        Ok(None) => return Err(OpRefusal::Fault(FaultKind::NoName)),
        Err(refusal) => return Err(refusal),
    }
}
