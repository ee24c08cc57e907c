//! Asks of nodes that need no run.
ghost use Rattle.std.specs.Prelude.{◌≡◌, IfOk, OnOk};
ghost use Rattle.mx_state.specs.Model.{model_of};
ghost use Rattle.mx_memo.specs.Memos.{AreHeld};
ghost use Rattle.mx_memo_laws.specs.Entries.{IsOrdered};
ghost use Rattle.mx_memo_laws.specs.Laws.{HeldOnce};
ghost use Rattle.mx_frames.specs.Asking.{Meets};

use crate::current::Current;
use crate::known::{Found, Known, find_known};
use mx_edit::reply::Reply;
use mx_list::shared::Shared;
use mx_memo::Memo;
use mx_value::node::SharedNode;
use mx_world::world::World;
use std::alloc::{AllocError, Global};

/// What a run that asks a node meets.
#[derive(Drop)]
pub enum Met {
    /// The node is held or an input, and so answered.
    Reply(Shared<Reply>),
    /// The node's own run has begun.
    Begun,
    /// The node needs a run.
    New,
}

/// A run asks a node: what is known of that answers it, and is recorded. Of a held node what is kept is recorded, so the one that
/// was made to ask it goes.
pub fn ask(
    alloc: Global,
    world: &World,
    memo: &Memo,
    current: &mut Current,
    node: &SharedNode,
) -> Result<Met, AllocError>
    requires ordered { IsOrdered memo.now }
    requires once { HeldOnce memo.now.held }
    requires asks { AreHeld memo.now.held current.old.records.asks }
    ensures met { IfOk result
        (Meets (model_of world.now) memo.now node.now current.old.records current.new.records) }
    ensures node { current.new.node ≡ current.old.node }
    ensures asks { OnOk result (AreHeld memo.now.held current.new.records.asks) }
{
    match find_known(alloc, world, memo, node)? {
        Known::Input(reply) => {
            current.records.ask_input(node)?;
            Ok(Met::Reply(reply))
        }
        Known::Held(found) => {
            let Found { id, node, reply } = found;
            current.records.ask(&node, id)?;
            Ok(Met::Reply(reply))
        }
        Known::Begun => Ok(Met::Begun),
        Known::New => Ok(Met::New),
    }
}
