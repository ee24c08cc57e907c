//! Which node is asked for one that is written.
ghost use Rattle.std.specs.Prelude.{◌≡◌, IfOk};
ghost use Rattle.mx_memo_laws.specs.Entries.{IsKept};
ghost use Rattle.mx_state.specs.Model.{model_of};
ghost use Rattle.mx_state.specs.Proper.{address_of};
ghost use Rattle.mx_machine.specs.Seeking.{IsAskedIn, IsSought};

use crate::behind::Behind;
use mx_binding::records::Records;
use mx_binding::settled::{Settled, settle};
use mx_binding::walking::{Led, walk_held};
use mx_memo::Memo;
use mx_value::namespace::Namespace;
use mx_value::node::Node;
use mx_value::value::Addr;
use mx_world::world::World;
use std::alloc::{AllocError, Global};

/// What is asked for a node, as far as what is held tells it.
#[derive(Drop)]
pub enum Sought {
    /// The bound form of the node, or the node itself where it has none.
    Asked(Node),
    /// It is known once an item on the way is held.
    Behind(Behind),
}

/// What is asked for a node, as it is written.
pub fn seek(alloc: Global, world: &World, memo: &Memo, node: &Node) -> Result<Sought, AllocError>
    requires { IsKept (model_of world.now) memo.now }
    ensures { IfOk result (IsSought (model_of world.now) memo.now.held node.now) }
{
    let mut records = Records::new(alloc);
    match walk_held(alloc, world, memo, address_of(node), &mut records)? {
        Led::Came(space) => return Ok(Sought::Asked(asked_in(alloc, world, node, &space)?)),
        Led::Waits(item, rest) => {
            return Ok(Sought::Behind(Behind {
                item,
                rest,
                records,
            }));
        }
        Led::NoSuch => return Ok(Sought::Asked(node.copy(alloc)?)),
        Led::WrongCount => return Ok(Sought::Asked(node.copy(alloc)?)),
    }
}

/// Which node is asked, where its walk came to a namespace.
pub fn asked_in(
    alloc: Global,
    world: &World,
    node: &Node,
    space: &Namespace,
) -> Result<Node, AllocError>
    ensures { IfOk result (IsAskedIn (model_of world.now) node.now space.now) }
{
    match settle(alloc, world, node, space)? {
        Settled::Bound(bound) => return Ok(bound),
        Settled::NoSuch => return Ok(node.copy(alloc)?),
        Settled::WrongCount => return Ok(node.copy(alloc)?),
    }
}

/// The address of a node.
fn address_of(node: &Node) -> &Addr
    ensures { result.now ≡ address_of node.now }
{
    match node {
        Node::Cell(at, _, _) => at,
        Node::Item(at, _) => at,
    }
}
