//! Runs that go on past the nodes that are known.
ghost use Rattle.std.specs.Prelude.{◌≡◌, IfOk, OnOk};
ghost use Rattle.mx_state.specs.Model.{model_of};
ghost use Rattle.mx_memo.specs.Memos.{AreHeld};
ghost use Rattle.mx_runs.specs.Runs.{Run};
ghost use Rattle.mx_memo_laws.specs.Entries.{IsOrdered};
ghost use Rattle.mx_memo_laws.specs.Laws.{HeldOnce};
ghost use Rattle.mx_node_runs.specs.Halts.{HaltsAs};
ghost use Rattle.mx_binding.specs.Records.{HasOwnKey};
ghost use Rattle.mx_frames.specs.Passing.{IsTold, IsToldThen, Pauses, PassesTo};
ghost use Rattle.mx_frames.specs.declared.passing.Paused.TheVariants as paused;

use crate::asking::{Met, ask};
use crate::current::{Current, Running};
use crate::resuming::{Resumed, resume};
use mx_lookup::ending::Ending;
use mx_memo::Memo;
use mx_node_runs::halt::{Halt, Waiting};
use mx_stack::stack::Stack;
use mx_value::node::SharedNode;
use mx_world::world::World;
use std::alloc::{AllocError, Global};

/// A node that is asked and not known.
#[derive(Drop)]
pub struct Asked {
    pub node: SharedNode,
    /// What the run that asks does with the answer.
    pub waiting: Waiting,
    /// The node's own run has begun.
    pub is_begun: bool,
}

/// Where a run comes to, past all nodes that are known.
#[derive(Drop)]
pub enum Paused {
    Ends(Ending),
    Asks(Asked),
}

/// A run that has come so far.
#[derive(Drop)]
pub struct Stretch {
    pub current: Current,
    pub paused: Paused,
}

/// Where a run comes to that goes on past one node at most.
#[derive(Drop)]
enum Passed {
    /// It has halted once more.
    Halts(Halt),
    Pauses(Paused),
}

/// The run on top goes on past the nodes that are held and the inputs, to its end or to a node that is neither.
pub fn pass(
    alloc: Global,
    world: &World,
    memo: &Memo,
    running: Running,
    stack: &mut Stack,
) -> Result<Stretch, AllocError>
    requires ordered { IsOrdered memo.now }
    requires once { HeldOnce memo.now.held }
    requires asks { AreHeld memo.now.held running.current.records.asks }
    ensures node { IfOk result (λ s. s.current.node ≡ running.current.node) }
    ensures asks { IfOk result (λ s. AreHeld memo.now.held s.current.records.asks) }
    ensures told { IfOk result (λ s. IsTold (model_of world.now) memo.now s.paused) }
    ensures passes { IfOk result
        (λ s. (run : Run) → HaltsAs running.current.node run running.halt stack.old.top →
        Pauses (model_of world.now) memo.now run running.current.records s stack.new.top
        × (stack.new.below ≡ stack.old.below)) }
    ensures own { IfOk result
        (λ s. (run : Run) → HaltsAs running.current.node run running.halt stack.old.top →
        HasOwnKey running.current.node running.current.records.seen.keys →
        HasOwnKey s.current.node s.current.records.seen.keys) }
{
    let Running { mut current, halt } = running;
    let mut halt = halt;
    for _ in 0..u64::MAX {
        match pass_one(alloc, world, memo, &mut current, halt, stack)? {
            Passed::Halts(next) => halt = next,
            Passed::Pauses(paused) => return Ok(Stretch { current, paused }),
        }
    }
    Err(AllocError)
}

/// The run on top goes on past one node that is known. It pauses where it has ended, and where it asks a node that is not.
fn pass_one(
    alloc: Global,
    world: &World,
    memo: &Memo,
    current: &mut Current,
    halt: Halt,
    stack: &mut Stack,
) -> Result<Passed, AllocError>
    requires ordered { IsOrdered memo.now }
    requires once { HeldOnce memo.now.held }
    requires asks { AreHeld memo.now.held current.old.records.asks }
    ensures node { current.new.node ≡ current.old.node }
    ensures asks { OnOk result (AreHeld memo.now.held current.new.records.asks) }
    ensures told { IfOk result (λ p. IsToldThen (model_of world.now) memo.now p) }
    ensures passes { IfOk result
        (λ p. (run : Run) → HaltsAs current.old.node run halt stack.old.top →
        PassesTo (model_of world.now) memo.now run current.old.records current.new p stack.new.top
        × (stack.new.below ≡ stack.old.below)) }
{
    let (node, waiting) = match halt {
        Halt::Ends(ending) => return Ok(Passed::Pauses(Paused::Ends(ending))),
        Halt::Asks(node, waiting) => (node, waiting),
    };
    match ask(alloc, world, memo, current, &node)? {
        Met::Reply(reply) => {
            let resumed = Resumed {
                waiting,
                reply: reply.get(),
            };
            let halt = resume(alloc, world, current, resumed, stack)?;
            return Ok(Passed::Halts(halt));
        }
        Met::Begun => return Ok(Passed::Pauses(waits(node, waiting, true))),
        Met::New => return Ok(Passed::Pauses(waits(node, waiting, false))),
    }
}

/// The run waits for a node.
fn waits(node: SharedNode, waiting: Waiting, is_begun: bool) -> Paused
    ensures { result
        ≡ paused.Asks (record { node = node; waiting = waiting; is_begun = is_begun }) }
{
    Paused::Asks(Asked {
        node,
        waiting,
        is_begun,
    })
}
