//! The bound form of a node by what is held.
ghost use Rattle.std.specs.Prelude.{◌≡◌, IfOk};
ghost use Rattle.mx_state.specs.Model.{model_of};
ghost use Rattle.mx_state.specs.Proper.{address_of};
ghost use Rattle.mx_answers.specs.Held.{nodes_of};
ghost use Rattle.mx_answers.specs.Records.{IsRightMemo};
ghost use Rattle.mx_memo_laws.specs.Entries.{IsOrdered, entries_of};
ghost use Rattle.mx_binding.specs.Bound.{IsBoundForm};
ghost use Rattle.mx_binding.specs.Settles.{IsSettled};

use crate::records::Records;
use crate::settled::{Settled, settle};
use crate::walking::{Led, walk_held};
use mx_memo::Memo;
use mx_value::namespace::Namespace;
use mx_value::node::Node;
use mx_value::value::Addr;
use mx_world::world::World;
use std::alloc::{AllocError, Global};

/// The bound form of a node, as it is written: its address with each item bound, and its own arguments
/// in full. None where it has none, and where an item on its way is not held.
pub fn bound(
    alloc: Global,
    world: &World,
    memo: &Memo,
    node: &Node,
) -> Result<Option<Node>, AllocError>
    requires memo { IsRightMemo (model_of world.now) (entries_of memo.now.held) }
    requires ordered { IsOrdered memo.now }
    ensures { IfOk result
        (IsBoundForm (model_of world.now) (nodes_of (entries_of memo.now.held)) node.now) }
{
    let mut records = Records::new(alloc);
    match walk_held(alloc, world, memo, address_of(node), &mut records)? {
        Led::Came(space) => return bound_in(alloc, world, node, &space),
        Led::Waits(_, _) => return Ok(None),
        Led::NoSuch => return Ok(None),
        Led::WrongCount => return Ok(None),
    }
}

/// The bound form of a node whose walk came to a namespace.
fn bound_in(
    alloc: Global,
    world: &World,
    node: &Node,
    space: &Namespace,
) -> Result<Option<Node>, AllocError>
    ensures { IfOk result (IsSettled (model_of world.now) node.now space.now) }
{
    match settle(alloc, world, node, space)? {
        Settled::Bound(bound) => return Ok(Some(bound)),
        Settled::NoSuch => return Ok(None),
        Settled::WrongCount => return Ok(None),
    }
}

/// The address of a node.
fn address_of(node: &Node) -> &Addr
    ensures { result.now ≡ address_of node.now }
{
    match node {
        Node::Cell(at, _, _) => at,
        Node::Item(at, _) => at,
    }
}
