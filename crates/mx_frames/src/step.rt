//! The steps of an evaluation.
ghost use Rattle.std.specs.Prelude.{◌≤◌};
ghost use Rattle.mx_vertices.specs.Found.{IsNew};
ghost use Rattle.mx_vertices.specs.Places.{Has};
ghost use Rattle.mx_state.specs.Model.{model_of};
ghost use Rattle.mx_memo_laws.specs.Laws.{HasGrown};
ghost use Rattle.mx_memo.specs.Memos.{Memory};
ghost use Rattle.mx_frames.specs.Flights.{IsDriven, IsSound, IsSoundAfter, IsSoundWith, frame_nodes};
ghost use Rattle.mx_frames.specs.Driving.{DrivesFrom, DrivesOn, StepsTo, stage, within};

use crate::begin::begin;
use crate::current::Running;
use crate::end::end;
use crate::passing::{Paused, Stretch, pass};
use crate::progress::{Given, Progress, Setting};
use crate::runs::Runs;
use crate::steps::Steps;
use crate::wait::wait;
use mx_memo::Memo;
use mx_value::node::SharedNode;
use mx_value::refusal::EvalRefusal;
use std::sync::ledger::Ledger;

/// The run on top goes on to its reply, to its end without one, or to a node that it asks, whose run begins. It stands in the
/// loop below, so that no run is moved in and out at each step.
#[inline(always)]
fn step<L: Ledger>(
    setting: &Setting<'_>,
    running: Running,
    memo: &mut Memo,
    runs: &mut Runs,
    steps: &mut Steps<L>,
) -> Result<Progress, EvalRefusal>
    requires sound { IsSoundWith memo.old runs.old.frames.items running }
    ensures flew { StepsTo (model_of setting.now.world.now)
        (within setting.now.limit setting.now.below) running
        (stage memo.old runs.old.stack runs.old.frames.items steps.old)
        (stage memo.new runs.new.stack runs.new.frames.items steps.new) result }
    ensures sound { IsSoundAfter memo.new runs.new.frames.items result }
    ensures grown { (start : Memory) → HasGrown start memo.old → HasGrown start memo.new }
    ensures ticks { steps.old ≤ steps.new }
{
    let Stretch { current, paused } = pass(
        runs.alloc,
        setting.world,
        memo,
        running,
        &mut runs.stack,
    )?;
    match paused {
        Paused::Ends(ending) => end(setting.world, current, ending, memo, runs),
        Paused::Asks(asked) => {
            let node = wait(runs.alloc, setting, current, asked, runs)?;
            let begun = begin(setting.world, node, memo, runs, steps)?;
            Ok(Progress::Going(begun))
        }
    }
}

/// The run of a node begins, and goes on with those that it asks until the node has given its reply.
pub fn drive<L: Ledger>(
    setting: &Setting<'_>,
    node: SharedNode,
    memo: &mut Memo,
    runs: &mut Runs,
    steps: &mut Steps<L>,
) -> Result<Given, EvalRefusal>
    requires sound { IsSound memo.old runs.old.frames.items (frame_nodes runs.old.frames.items) }
    requires new { IsNew memo.old.held node }
    requires apart { Has memo.old.begun node → ⊥ }
    ensures drove { DrivesFrom (model_of setting.now.world.now)
        (within setting.now.limit setting.now.below) node
        (stage memo.old runs.old.stack runs.old.frames.items steps.old) memo.new steps.new result }
    ensures sound { IsDriven memo.new runs.new.frames.items result }
    ensures grown { (start : Memory) → HasGrown start memo.old → HasGrown start memo.new }
    ensures ticks { steps.old ≤ steps.new }
{
    let running = begin(setting.world, node, memo, runs, steps)?;
    go_on(setting, running, memo, runs, steps)
}

/// The run on top goes on, with those that it asks, until the first of those in flight has given its reply.
pub fn go_on<L: Ledger>(
    setting: &Setting<'_>,
    running: Running,
    memo: &mut Memo,
    runs: &mut Runs,
    steps: &mut Steps<L>,
) -> Result<Given, EvalRefusal>
    requires sound { IsSoundWith memo.old runs.old.frames.items running }
    ensures drove { DrivesOn (model_of setting.now.world.now)
        (within setting.now.limit setting.now.below) running
        (stage memo.old runs.old.stack runs.old.frames.items steps.old) memo.new steps.new result }
    ensures sound { IsDriven memo.new runs.new.frames.items result }
    ensures grown { (start : Memory) → HasGrown start memo.old → HasGrown start memo.new }
    ensures ticks { steps.old ≤ steps.new }
{
    let mut running = running;
    for _ in 0..u64::MAX {
        match step(setting, running, memo, runs, steps)? {
            Progress::Going(next) => running = next,
            Progress::Done(given) => return Ok(given),
        }
    }
    Err(EvalRefusal::NoMemory)
}
