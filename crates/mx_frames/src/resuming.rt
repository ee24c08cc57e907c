//! Runs that go on with a reply.
ghost use Rattle.std.specs.Prelude.{◌≡◌, IfOk};
ghost use Rattle.mx_edit.specs.declared.reply.Reply.{Reply as Replies};
ghost use Rattle.mx_runs.specs.Runs.{Run};
ghost use Rattle.mx_state.specs.Model.{model_of};
ghost use Rattle.mx_node_runs.specs.Halts.{HaltsAt, Resumes};

use crate::current::Current;
use mx_edit::reply::Reply;
use mx_node_runs::halt::{Halt, Waiting};
use mx_node_runs::runs::{Answered, answer};
use mx_stack::stack::Stack;
use mx_world::world::World;
use std::alloc::{AllocError, Global};

/// The reply that a run waited for, and how it goes on with it.
#[derive(Drop)]
pub struct Resumed<'r> {
    pub waiting: Waiting,
    pub reply: &'r Reply,
}

/// The run on top goes on with a reply.
pub fn resume(
    alloc: Global,
    world: &World,
    current: &mut Current,
    resumed: Resumed<'_>,
    stack: &mut Stack,
) -> Result<Halt, AllocError>
    ensures goes { IfOk result
        (λ halt. (go : Replies → Run) →
        Resumes current.old.node resumed.entry.waiting stack.old.top go →
        HaltsAt (model_of world.now) current.old.node
        (go resumed.entry.reply.now) current.old.records.seen current.new.records.seen halt
        stack.new.top × (stack.new.below ≡ stack.old.below)) }
    ensures node { current.new.node ≡ current.old.node }
    ensures asks { current.new.records.asks ≡ current.old.records.asks }
{
    let answered = Answered {
        node: &current.node,
        waiting: resumed.waiting,
        reply: resumed.reply,
    };
    answer(alloc, world, answered, &mut current.records.seen, stack)
}
