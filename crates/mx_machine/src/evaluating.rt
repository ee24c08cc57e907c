//! Evaluations of nodes in bound form, and of such as have none.
ghost use Rattle.std.specs.Prelude.{◌≡◌, ◌-◌, ◌≤◌};
ghost use Rattle.mx_memo_laws.specs.Entries.{IsKept, IsOrdered};
ghost use Rattle.mx_frames.specs.Known.{IsUnknown};
ghost use Rattle.mx_state.specs.Model.{model_of};
ghost use Rattle.mx_machine.specs.Closing.{HasClosed, IsOver};
ghost use Rattle.mx_machine.specs.Settings.{IsAlone, evaluation_of};

use crate::closing::close;
use mx_frames::known::{Known, find_known};
use mx_frames::progress::Setting;
use mx_frames::runs::Runs;
use mx_frames::step::drive;
use mx_frames::steps::Steps;
use mx_memo::Memo;
use mx_value::node::{Node, SharedNode};
use mx_value::refusal::EvalRefusal;
use mx_value::value::Value;
use std::alloc::Global;
use std::sync::ledger::Ledger;

/// The value of a node that is asked itself. One that is held and an input answer at once.
pub fn evaluate<L: Ledger>(
    alloc: Global,
    setting: &Setting<'_>,
    node: Node,
    memo: &mut Memo,
    steps: &mut Steps<L>,
) -> Result<Value, EvalRefusal>
    requires kept { IsKept (model_of setting.now.world.now) memo.old }
    requires alone { IsAlone setting.now.limit setting.now.below }
    ensures closed { HasClosed (model_of setting.now.world.now)
        (evaluation_of node memo.old setting.now.limit) memo.new (steps.new - steps.old) result }
    ensures ticks { steps.old ≤ steps.new }
{
    let node = SharedNode::new(alloc, node)?;
    match find_known(alloc, setting.world, memo, &node)? {
        Known::Input(reply) => return Ok(reply.get().value.copy(alloc)?),
        Known::Held(found) => return Ok(found.reply.get().value.copy(alloc)?),
        Known::Begun => unreachable!(),
        Known::New => return evaluate_new(alloc, setting, node, memo, steps),
    }
}

/// The value of a node that is neither held nor an input.
fn evaluate_new<L: Ledger>(
    alloc: Global,
    setting: &Setting<'_>,
    node: SharedNode,
    memo: &mut Memo,
    steps: &mut Steps<L>,
) -> Result<Value, EvalRefusal>
    requires kept { IsKept (model_of setting.now.world.now) memo.old }
    requires alone { IsAlone setting.now.limit setting.now.below }
    requires unknown { IsUnknown (model_of setting.now.world.now) memo.old node }
    ensures closed { HasClosed (model_of setting.now.world.now)
        (evaluation_of node memo.old setting.now.limit) memo.new (steps.new - steps.old) result }
    ensures ticks { steps.old ≤ steps.new }
{
    let since = memo.last_stamp();
    let answer = run_new(alloc, setting, node, memo, steps);
    close(memo, since, &answer);
    answer
}

/// The run of such a node, with those that it asks. Whatever was computed is held.
fn run_new<L: Ledger>(
    alloc: Global,
    setting: &Setting<'_>,
    node: SharedNode,
    memo: &mut Memo,
    steps: &mut Steps<L>,
) -> Result<Value, EvalRefusal>
    requires kept { IsKept (model_of setting.now.world.now) memo.old }
    requires alone { IsAlone setting.now.limit setting.now.below }
    requires unknown { IsUnknown (model_of setting.now.world.now) memo.old node }
    ensures over { IsOver (model_of setting.now.world.now) memo.old memo.new
        (evaluation_of node memo.old setting.now.limit) (steps.new - steps.old) result }
    ensures ordered { IsOrdered memo.new }
    ensures ticks { steps.old ≤ steps.new }
{
    mx_suspended::items_first::laws();
    let mut runs = Runs::new(alloc);
    let given = drive(setting, node, memo, &mut runs, steps)?;
    Ok(given.reply.get().value.copy(alloc)?)
}
