//! Runs that have ended.
ghost use Rattle.std.specs.Prelude.{◌≡◌, ◌≤◌, ℕ, length};
ghost use Rattle.mx_state.specs.Model.{model_of};
ghost use Rattle.mx_memo_laws.specs.Laws.{HasGrown};
ghost use Rattle.mx_memo.specs.Memos.{Memory};
ghost use Rattle.mx_frames.specs.Flights.{Flew, IsPaused, IsSoundAfter, IsSoundPaused, Work, first_of, stretch_ending};

use crate::current::Current;
use crate::give::give;
use crate::progress::Progress;
use crate::runs::Runs;
use mx_lookup::ending::Ending;
use mx_memo::Memo;
use mx_value::refusal::EvalRefusal;
use mx_world::world::World;

/// The run on top has ended: with its reply it is held, and with anything else the evaluation is over.
pub fn end(
    world: &World,
    current: Current,
    ending: Ending,
    memo: &mut Memo,
    runs: &mut Runs,
) -> Result<Progress, EvalRefusal>
    requires sound { IsSoundPaused memo.old runs.old.frames.items (stretch_ending current ending) }
    ensures flew { (q : Work) (now : ℕ) →
        IsPaused (model_of world.now) q memo.old runs.old.stack runs.old.frames.items
        (stretch_ending current ending) now →
        Flew (model_of world.now) q memo.new runs.new.stack runs.new.frames.items
        (first_of runs.old.frames.items current.node) now result }
    ensures sound { IsSoundAfter memo.new runs.new.frames.items result }
    ensures grown { (start : Memory) → HasGrown start memo.old → HasGrown start memo.new }
    ensures frames { length runs.new.frames.items ≤ length runs.old.frames.items }
{
    match ending {
        Ending::Gives(reply) => give(world, current, reply, memo, runs),
        Ending::Faults(kind, line) => {
            let node = current.node.get().copy(runs.alloc)?;
            Err(EvalRefusal::Fault { kind, node, line })
        }
        Ending::NoSuch => Err(EvalRefusal::NoSuch),
        Ending::WrongCount => Err(EvalRefusal::WrongCount),
    }
}
