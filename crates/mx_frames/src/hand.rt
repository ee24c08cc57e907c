//! How a run that waits goes on with the reply of the node that it asked.
ghost use Rattle.std.specs.Prelude.{◌≡◌, ◌≤◌, ℕ, length};
ghost use Rattle.mx_state.specs.Model.{model_of};
ghost use Rattle.mx_memo.specs.Memos.{Memory};
ghost use Rattle.mx_frames.specs.Flights.{IsSound, Work, first_of, frame_nodes};
ghost use Rattle.mx_frames.specs.Giving.{GoesDown, IsAtHand, IsHandedDown, IsHandedOver};

use crate::current::Running;
use crate::progress::{Given, Progress};
use crate::resuming::{Resumed, resume};
use crate::runs::{Frame, Runs};
use mx_world::world::World;
use std::alloc::{AllocError, Global};

/// The last of the runs that wait goes on with the reply of the node that it asked. Where none waits, the first node has
/// given its reply.
pub fn hand_down(
    alloc: Global,
    world: &World,
    given: Given,
    runs: &mut Runs,
) -> Result<Progress, AllocError>
    ensures goes { (q : Work) (m : Memory) (now : ℕ) → IsAtHand m runs.old.frames.items given →
        IsHandedOver
        (model_of world.now) q m runs.old.stack.below runs.old.frames.items given.node given.reply
        now → GoesDown (model_of world.now) q m given runs.new.stack runs.new.frames.items
        (first_of runs.old.frames.items given.node) now result }
    ensures sound { (m : Memory) → IsAtHand m runs.old.frames.items given →
        IsSound m runs.old.frames.items (frame_nodes runs.old.frames.items) →
        IsHandedDown m runs.new.frames.items given result }
    ensures frames { length runs.new.frames.items ≤ length runs.old.frames.items }
{
    let Some(frame) = runs.frames.pop() else {
        return Ok(Progress::Done(given));
    };
    let Frame {
        mut current,
        waiting,
    } = frame;
    current.records.ask(&given.node, given.id)?;
    runs.stack.end();
    let resumed = Resumed {
        waiting,
        reply: given.reply.get(),
    };
    let halt = resume(alloc, world, &mut current, resumed, &mut runs.stack)?;
    Ok(Progress::Going(Running { current, halt }))
}
