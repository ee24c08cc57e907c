//! The value that was put in for a node, which its run looks up before all else.
ghost use Rattle.std.specs.Prelude.{◌≡◌, IfOk};
ghost use Rattle.mx_value.specs.declared.value.Segment.{out-Segment};
ghost use Rattle.mx_meaning.specs.Nodes.{body};
ghost use Rattle.mx_runs.specs.Inputs as inputs;
ghost use Rattle.mx_state.specs.Model.{model_of};
ghost use Rattle.mx_node_runs.specs.Behind.{after_input};
ghost use Rattle.mx_node_runs.specs.Halts.{GoesOn};

use mx_edit::key::Key;
use mx_read_set::seen::Seen;
use mx_value::node::{Node, SharedNode};
use mx_value::value::{Segment, Value};
use mx_world::world::World;
use std::alloc::{AllocError, Global};

/// The value that was put in for a node, where it can have one.
pub fn find_input(
    alloc: Global,
    world: &World,
    node: &SharedNode,
    seen: &mut Seen,
) -> Result<Option<Value>, AllocError>
    ensures { IfOk result (λ found.
        GoesOn (model_of world.now) (body node.now) seen.old (after_input node.now found) seen.new) }
{
    let Node::Cell(at, _, _) = node.get() else {
        return Ok(None);
    };
    if !is_static(at.as_slice()) {
        return Ok(None);
    }
    seen.look(Key::Input(node.copy()?))?;
    match world.input(node.get()) {
        Some(value) => return Ok(Some(value.copy(alloc)?)),
        None => return Ok(None),
    }
}

/// Whether an address has no item.
fn is_static(at: &[Segment]) -> bool
    ensures { result ≡ inputs.is_static at.now }
{
    for segment in at {
        if !is_name(segment) {
            return false;
        }
    }
    true
}

/// Whether a segment is a name.
fn is_name(segment: &Segment) -> bool
    ensures { result ≡ inputs.is_name (out-Segment segment.now) }
{
    match segment {
        Segment::Name(_) => true,
        Segment::Item(_) => false,
    }
}
