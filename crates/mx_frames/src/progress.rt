//! How an evaluation stands after a step.
use crate::current::Running;
use mx_edit::reply::Reply;
use mx_graph::NodeId;
use mx_list::shared::Shared;
use mx_value::node::SharedNode;
use mx_world::world::World;

/// A node that has given its reply and is held under this id.
#[derive(Drop)]
pub struct Given {
    pub id: NodeId,
    pub node: SharedNode,
    pub reply: Shared<Reply>,
}

/// How an evaluation stands after a step: a run goes on, or the first node has given its reply.
#[derive(Drop)]
pub enum Progress {
    Going(Running),
    Done(Given),
}

/// What an evaluation reads, and its bounds.
#[derive(Clone, Copy)]
pub struct Setting<'w> {
    pub world: &'w World,
    /// The most runs that are in flight at once.
    pub limit: usize,
    /// How many runs wait below those of this stack.
    pub below: usize,
}
