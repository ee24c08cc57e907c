//! Evaluations.
ghost use Rattle.std.specs.Prelude.{◌-◌, ◌≤◌};
ghost use Rattle.mx_answers.specs.Answers.{IsLimit};
ghost use Rattle.mx_memo_laws.specs.Entries.{IsKept};
ghost use Rattle.mx_state.specs.Evaluations.{Evaluates};
ghost use Rattle.mx_state.specs.Model.{model_of};
ghost use Rattle.mx_machine.specs.States.{state_of};

use crate::behind::evaluate_behind;
use crate::evaluating::evaluate;
use crate::seeking::{Sought, seek};
use mx_frames::progress::Setting;
use mx_frames::steps::Steps;
use mx_memo::Memo;
use mx_value::node::Node;
use mx_value::refusal::EvalRefusal;
use mx_value::value::Value;
use mx_world::world::World;
use std::alloc::Global;
use std::sync::ledger::Ledger;

/// A node that is asked from outside, as it is written.
#[derive(Clone, Copy)]
pub struct Request<'r> {
    pub world: &'r World,
    pub node: &'r Node,
    /// The most runs that may be in flight at once.
    pub limit: usize,
}

/// The value of the node, which is held with those that it rests on. After a fault and a ring what
/// was computed stays held; after each other refusal is held what was held before.
pub fn run<L: Ledger>(
    alloc: Global,
    request: &Request<'_>,
    memo: &mut Memo,
    steps: &mut Steps<L>,
) -> Result<Value, EvalRefusal>
    requires kept { IsKept (model_of request.now.world.now) memo.old }
    requires limit { IsLimit request.now.limit }
    ensures kept { IsKept (model_of request.now.world.now) memo.new }
    ensures evaluates { Evaluates
        (state_of request.now.world.now memo.old request.now.limit) request.now.node.now result
        (steps.new - steps.old) (state_of request.now.world.now memo.new request.now.limit) }
    ensures ticks { steps.old ≤ steps.new }
{
    match seek(alloc, request.world, memo, request.node)? {
        Sought::Asked(node) => {
            let setting = Setting {
                world: request.world,
                limit: request.limit,
                below: 0,
            };
            return evaluate(alloc, &setting, node, memo, steps);
        }
        Sought::Behind(behind) => return evaluate_behind(alloc, request, behind, memo, steps),
    }
}
