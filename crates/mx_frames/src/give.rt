//! Runs that give their reply.
ghost use Rattle.std.specs.Prelude.{◌≡◌, ◌≤◌, ℕ, length};
ghost use Rattle.mx_state.specs.Model.{model_of};
ghost use Rattle.mx_memo_laws.specs.Laws.{HasGrown};
ghost use Rattle.mx_memo.specs.Memos.{Memory};
ghost use Rattle.mx_frames.specs.Flights.{Flew, IsPaused, IsSoundAfter, IsSoundPaused, Work, first_of, stretch_giving};

use crate::current::Current;
use crate::hand::hand_down;
use crate::hold::hold;
use crate::progress::Progress;
use crate::runs::Runs;
use mx_edit::reply::Reply;
use mx_list::shared::Shared;
use mx_memo::{HoldRefusal, Memo};
use mx_value::refusal::EvalRefusal;
use mx_world::world::World;

/// The run on top has given its reply, which is held from now on, and the run that asked its node goes on with it.
pub fn give(
    world: &World,
    current: Current,
    reply: Shared<Reply>,
    memo: &mut Memo,
    runs: &mut Runs,
) -> Result<Progress, EvalRefusal>
    requires sound { IsSoundPaused memo.old runs.old.frames.items (stretch_giving current reply) }
    ensures flew { (q : Work) (now : ℕ) →
        IsPaused (model_of world.now) q memo.old runs.old.stack runs.old.frames.items
        (stretch_giving current reply) now →
        Flew (model_of world.now) q memo.new runs.new.stack runs.new.frames.items
        (first_of runs.old.frames.items current.node) now result }
    ensures sound { IsSoundAfter memo.new runs.new.frames.items result }
    ensures grown { (start : Memory) → HasGrown start memo.old → HasGrown start memo.new }
    ensures frames { length runs.new.frames.items ≤ length runs.old.frames.items }
{
    let alloc = runs.alloc;
    let given = match hold(alloc, current, reply, memo) {
        Ok(given) => given,
        Err(HoldRefusal::Full) => return Err(EvalRefusal::Full),
        Err(HoldRefusal::NoMemory) => return Err(EvalRefusal::NoMemory),
    };
    match hand_down(alloc, world, given, runs) {
        Ok(progress) => Ok(progress),
        Err(_) => Err(EvalRefusal::NoMemory),
    }
}
