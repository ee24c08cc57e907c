//! The bound form of a node, by what is held.
ghost use Rattle.std.specs.Prelude.{IfOk};
ghost use Rattle.mx_memo_laws.specs.Entries.{IsKept};
ghost use Rattle.mx_state.specs.Evaluations.{HasBoundForm};
ghost use Rattle.mx_state.specs.Model.{model_of};
ghost use Rattle.mx_machine.specs.States.{state_of};

use mx_memo::Memo;
use mx_value::node::Node;
use mx_world::world::World;
use std::alloc::{AllocError, Global};

/// The bound form of a node, or None exactly where it has none that is known by what is held.
pub fn bound(
    alloc: Global,
    world: &World,
    memo: &Memo,
    node: &Node,
) -> Result<Option<Node>, AllocError>
    requires { IsKept (model_of world.now) memo.now }
    ensures { IfOk result (HasBoundForm (state_of world.now memo.now 1) node.now) }
{
    mx_binding::bound::bound(alloc, world, memo, node)
}
