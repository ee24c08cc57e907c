//! How the run of a node begins.
ghost use Rattle.std.specs.Prelude.{◌≡◌, ◌≤◌};
ghost use Rattle.mx_vertices.specs.Found.{IsNew};
ghost use Rattle.mx_vertices.specs.Places.{Has};
ghost use Rattle.mx_state.specs.Model.{model_of};
ghost use Rattle.mx_frames.specs.Flights.{Begins, IsAwaited, IsBegun, IsSound, Work, first_of, frame_nodes};

use crate::current::{Current, Running};
use crate::runs::{Frame, Runs};
use crate::steps::Steps;
use mx_binding::records::Records;
use mx_memo::Memo;
use mx_node_runs::halt::Waiting;
use mx_node_runs::runs::start;
use mx_value::namespace::Namespace;
use mx_value::node::SharedNode;
use mx_value::refusal::EvalRefusal;
use mx_world::world::World;
use std::sync::ledger::Ledger;

/// The run of a node begins on top of the others, is counted, and goes on to its end or to a node that it asks.
pub fn begin<L: Ledger>(
    world: &World,
    node: SharedNode,
    memo: &mut Memo,
    runs: &mut Runs,
    steps: &mut Steps<L>,
) -> Result<Running, EvalRefusal>
    requires sound { IsSound memo.old runs.old.frames.items (frame_nodes runs.old.frames.items) }
    requires new { IsNew memo.old.held node }
    requires apart { Has memo.old.begun node → ⊥ }
    ensures begins { (q : Work) →
        IsAwaited
        (model_of world.now) q memo.old runs.old.stack runs.old.frames.items node steps.old →
        Begins (model_of world.now) q memo.new runs.new.stack runs.new.frames.items
        (first_of runs.old.frames.items node) steps.new result }
    ensures sound { IsBegun memo.new runs.new.frames.items result }
    ensures held { memo.new.held ≡ memo.old.held }
    ensures last { memo.new.last ≡ memo.old.last }
    ensures frames { runs.new.frames.items ≡ runs.old.frames.items }
    ensures ticks { steps.old ≤ steps.new }
{
    let alloc = runs.alloc;
    let Ok(()) = memo.begin(&node) else {
        return Err(EvalRefusal::NoMemory);
    };
    steps.tick();
    let mut records = Records::new(alloc);
    let near = near_in(runs.frames.as_slice());
    let Ok(halt) = start(
        alloc,
        world,
        &node,
        near,
        &mut records.seen,
        &mut runs.stack,
    ) else {
        return Err(EvalRefusal::NoMemory);
    };
    let current = Current { node, records };
    return Ok(Running { current, halt });
}

/// The namespace in which the run that waits last runs its code.
fn near_in(frames: &[Frame]) -> Option<&Namespace> {
    let Some(frame) = frames.last() else {
        return None;
    };
    match &frame.waiting {
        Waiting::InCode(place) => Some(&place.home.get().space),
        Waiting::OnWay(_) => None,
    }
}
