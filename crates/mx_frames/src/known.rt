//! What is known of an asked node.
ghost use Rattle.std.specs.Prelude.{◌≡◌, false, MatchOption, IfOk};
ghost use Rattle.mx_runs.specs.Inputs.{is_input};
ghost use Rattle.mx_state.specs.Model.{model_of};
ghost use Rattle.mx_memo_laws.specs.Entries.{IsOrdered};
ghost use Rattle.mx_vertices.specs.Found.{IsHeldAs};
ghost use Rattle.mx_frames.specs.Known.{HasInput, IsHeldReply, IsKnownAs};

use mx_edit::reply::Reply;
use mx_graph::NodeId;
use mx_list::shared::Shared;
use mx_memo::{Memo, Standing};
use mx_value::node::{Node, SharedNode};
use mx_value::value::Value;
use mx_vertices::inputs::is_static;
use mx_world::world::World;
use std::alloc::{AllocError, Global};

/// A held node: its id, the node as it is kept, and its reply.
#[derive(Drop)]
pub struct Found {
    pub id: NodeId,
    pub node: SharedNode,
    pub reply: Shared<Reply>,
}

/// What is known of an asked node without a run.
#[derive(Drop)]
pub enum Known {
    /// It has a value that was put in.
    Input(Shared<Reply>),
    /// It is held.
    Held(Found),
    /// Its run has begun and has not ended.
    Begun,
    /// Nothing.
    New,
}

/// The value that was put in for a node.
fn input_of<'w>(world: &'w World, node: &Node) -> Option<&'w Value>
    ensures { MatchOption result (is_input (model_of world.now) node.now ≡ false)
        (λ v. HasInput (model_of world.now) node.now v.now) }
{
    if !is_static(node) {
        return None;
    }
    world.input(node)
}

/// What is known of an asked node.
pub fn find_known(
    alloc: Global,
    world: &World,
    memo: &Memo,
    node: &SharedNode,
) -> Result<Known, AllocError>
    requires { IsOrdered memo.now }
    ensures { IfOk result (IsKnownAs (model_of world.now) memo.now node.now) }
{
    if let Some(value) = input_of(world, node.get()) {
        let reply = Reply {
            value: value.copy(alloc)?,
            namespace: None,
        };
        return Ok(Known::Input(Shared::new(alloc, reply)?));
    }
    match memo.standing(node) {
        Some(Standing::Ended(id)) => return held(memo, node, id),
        Some(Standing::Begun) => return Ok(Known::Begun),
        None => return Ok(Known::New),
    }
}

/// What a held node gives.
fn held(memo: &Memo, node: &SharedNode, id: NodeId) -> Result<Known, AllocError>
    requires ordered { IsOrdered memo.now }
    requires held { IsHeldAs memo.now.held id.at node.now }
    ensures { IfOk result (IsHeldReply memo.now.held node.now) }
{
    let Some(body) = memo.body(id) else {
        unreachable!()
    };
    let node = body.node.copy()?;
    let reply = body.reply.copy()?;
    Ok(Known::Held(Found { id, node, reply }))
}
