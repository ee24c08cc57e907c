//! The reads of a node.
ghost use Rattle.std.specs.Prelude.{IfOk};
ghost use Rattle.mx_memo_laws.specs.Entries.{entries_of, IsKept, IsOrdered};
ghost use Rattle.mx_state.specs.Model.{model_of};
ghost use Rattle.mx_engine.specs.Precedents.{AreReadBy, AreHeldReads};

use mx_list::list::List;
use mx_machine::bound::bound;
use mx_memo::Memo;
use mx_value::node::{Node, SharedNode};
use mx_value::read::Reads;
use mx_world::world::World;
use std::alloc::{AllocError, Global};

/// What the run of a node with a value read. The node is held, or it is an input.
pub(crate) fn reads_of(
    alloc: Global,
    world: &World,
    memo: &Memo,
    node: &Node,
) -> Result<Reads, AllocError>
    requires { IsKept (model_of world.now) memo.now }
    ensures { IfOk result (AreReadBy world.now memo.now node.now) }
{
    mx_state::laws::laws();
    mx_answers::laws::laws();
    match bound(alloc, world, memo, node)? {
        Some(form) => return reads_held(alloc, memo, form),
        None => return List::empty(alloc),
    }
}

/// The reads that are held of a node. None where it is not held.
fn reads_held(alloc: Global, memo: &Memo, node: Node) -> Result<Reads, AllocError>
    requires { IsOrdered memo.now }
    ensures { IfOk result (AreHeldReads (entries_of memo.now.held) node) }
{
    mx_memo_laws::laws::laws();
    let shared = SharedNode::new(alloc, node)?;
    let Some(id) = memo.find(&shared) else {
        return List::empty(alloc);
    };
    let Some(body) = memo.body(id) else {
        unreachable!()
    };
    body.reads.copy()
}
