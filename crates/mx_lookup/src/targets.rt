//! What the targets of references stand for.
ghost use Rattle.std.specs.Prelude.{◌≡◌, ℕ, option_copied, IfOk};
ghost use Rattle.mx_value.specs.declared.value.Value.{Value as Values};
ghost use Rattle.mx_model.specs.Keys.{key_result};
ghost use Rattle.mx_meaning.specs.References as spec;
ghost use Rattle.mx_code_law.specs.States.{Home, Next};
ghost use Rattle.mx_code_law.specs.Finding.{cells_next, member_next, space_next, target_next};
ghost use Rattle.mx_stack.specs.Came.{Continues};
ghost use Rattle.mx_lookup.specs.Goes.{Goes};
ghost use Rattle.mx_lookup.specs.Targets.{target_meant};

use crate::addresses::{add_names, extend_path, member_of, parent_address, parent_path};
use mx_edit::key::Key;
use mx_ops::op::OpRefusal;
use mx_read_set::seen::Seen;
use mx_value::fault::FaultKind;
use mx_value::label::Label;
use mx_value::namespace::Namespace;
use mx_value::node::Path;
use mx_value::value::{Addr, CellsAt, Value};
use mx_world::bound::Bound;
use mx_world::world::World;
use std::alloc::{AllocError, Global};

/// The most segments of an address.
const MOST_SEGMENTS: usize = 64;

/// What a target stands for: its address, and the path that is tested for it.
#[derive(Drop)]
pub struct Target {
    pub at: Addr,
    pub path: Path,
}

/// The target of a path: in the space where the look-up is made, where some names are relative to
/// it, and else where it was written.
pub fn target_of(
    alloc: Global,
    space: &Namespace,
    path: &Path,
    relative: Option<&[Label]>,
) -> Result<Target, AllocError>
    ensures { IfOk result
        (λ t. target_meant t ≡ spec.target_of space.now path.now (option_copied relative.entry)) }
{
    let Some(names) = relative else {
        let at = add_names(alloc, &[], path.as_slice())?;
        let path = path.copy()?;
        return Ok(Target { at, path });
    };
    let at = add_names(alloc, space.at.as_slice(), names)?;
    let path = extend_path(alloc, space.source.as_slice(), names)?;
    return Ok(Target { at, path });
}

/// The space at an address. TooLarge comes exactly where this has more than 64 segments.
pub fn space_at(at: Addr) -> Result<Value, OpRefusal>
    ensures { (h : Home) (line : ℕ) (to : Values → Next) →
        Continues result h line to (space_next h at line to) }
{
    if at.len() <= MOST_SEGMENTS {
        return Ok(Value::Space(at));
    }
    return Err(OpRefusal::Fault(FaultKind::TooLarge));
}

/// The cells of a name in the space at an address. TooLarge comes exactly where this has more than
/// 64 segments.
pub fn cells_at(space: Addr, name: Label) -> Result<Value, OpRefusal>
    ensures { (h : Home) (line : ℕ) (to : Values → Next) →
        Continues result h line to (cells_next h space name line to) }
{
    if space.len() <= MOST_SEGMENTS {
        return Ok(Value::Cells(CellsAt { space, name }));
    }
    return Err(OpRefusal::Fault(FaultKind::TooLarge));
}

/// The cells that the last name of a target's path is bound to.
fn seek_member(
    alloc: Global,
    world: &World,
    target: &Target,
    seen: &mut Seen,
) -> Result<Value, OpRefusal>
    ensures { (h : Home) (line : ℕ) (to : Values → Next) →
        Goes (key_result world.now) result h line to
        (member_next h (target_meant target.now)
        (spec.member_of target.now.path) line to) seen.old seen.new }
{
    let Some(name) = member_of(&target.path) else {
        return Err(OpRefusal::Fault(FaultKind::NoName));
    };
    let parent = parent_path(alloc, &target.path)?;
    let name = name.copy()?;
    seen.look(Key::Name(parent.copy()?, name.copy()?))?;
    match world.name(&parent, &name) {
        Bound::CellsHere => return cells_at(parent_address(alloc, &target.at)?, name),
        Bound::Child => return Err(OpRefusal::Fault(FaultKind::NoName)),
        Bound::Ref(_) => return Err(OpRefusal::Fault(FaultKind::NoName)),
        Bound::Missing => return Err(OpRefusal::Fault(FaultKind::NoName)),
    }
}

/// The value of a target: the space of its path where that is there, or else the cells that its last
/// name is bound to.
pub fn seek_target(
    alloc: Global,
    world: &World,
    target: Target,
    seen: &mut Seen,
) -> Result<Value, OpRefusal>
    ensures { (h : Home) (line : ℕ) (to : Values → Next) →
        Goes (key_result world.now) result h line to
        (target_next h (target_meant target) line to) seen.old seen.new }
{
    seen.look(Key::Exists(target.path.copy()?))?;
    if world.exists(&target.path) {
        return space_at(target.at);
    }
    return seek_member(alloc, world, &target, seen);
}
