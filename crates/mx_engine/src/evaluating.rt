//! Evaluations.
ghost use Rattle.std.specs.Prelude.{◌-◌, ◌≤◌};
ghost use Rattle.mx_machine.specs.States.{state_of};
ghost use Rattle.mx_state.specs.Evaluations.{Evaluates, HasPrecedents};
ghost use Rattle.mx_state.specs.Proper.{IsProper};
ghost use Rattle.mx_engine.specs.Engine.{IsSound};

use crate::engine::Engine;
use crate::gaps::{close_gaps, keep_first};
use crate::precedents::reads_of;
use mx_frames::steps::Steps;
use mx_machine::machine::{Request, run};
use mx_memo::Memo;
use mx_value::node::Node;
use mx_value::read::Reads;
use mx_value::refusal::EvalRefusal;
use mx_value::value::Value;
use mx_world::world::World;
use std::alloc::Global;
use std::sync::ledger::Ledger;

impl Engine {
    /// The value of a node, whose arguments are bound first. It is held from then on, with the values of all nodes that it rests
    /// on. After a fault and a ring what was computed stays held; after each other refusal is held what was held before.
    pub fn eval<L: Ledger>(
        &mut self,
        node: &Node,
        steps: &mut Steps<L>,
    ) -> Result<Value, EvalRefusal>
        requires { IsProper node.now }
        ensures evaluates { Evaluates self.old node.now result (steps.new - steps.old) self.new }
        ensures ticks { steps.old ≤ steps.new }
    {
        let request = Request {
            world: &self.world,
            node,
            limit: self.limit,
        };
        evaluate(self.alloc, &request, &mut self.memo, steps)
    }

    /// What the run of a node read, each once and in order of first read. The node is evaluated first. An input reads nothing.
    pub fn precedents<L: Ledger>(
        &mut self,
        node: &Node,
        steps: &mut Steps<L>,
    ) -> Result<Reads, EvalRefusal>
        requires { IsProper node.now }
        ensures precedents { let ticks = steps.new - steps.old in
            HasPrecedents self.old node.now result ticks self.new }
        ensures ticks { steps.old ≤ steps.new }
    {
        let request = Request {
            world: &self.world,
            node,
            limit: self.limit,
        };
        read(self.alloc, &request, &mut self.memo, steps)
    }
}

/// The value of a node, with a memo whose stamps have few gaps.
fn evaluate<L: Ledger>(
    alloc: Global,
    request: &Request<'_>,
    memo: &mut Memo,
    steps: &mut Steps<L>,
) -> Result<Value, EvalRefusal>
    requires { IsSound request.now.world.now memo.old request.now.limit }
    ensures sound { IsSound request.now.world.now memo.new request.now.limit }
    ensures evaluates { let before = state_of request.now.world.now memo.old request.now.limit in
        let after = state_of request.now.world.now memo.new request.now.limit in
        Evaluates before request.now.node.now result (steps.new - steps.old) after }
    ensures ticks { steps.old ≤ steps.new }
{
    mx_state::laws::laws();
    close_gaps(memo);
    run(alloc, request, memo, steps)
}

/// The reads of a node, which is evaluated first. Where there is no memory for them, nothing more is held than before.
fn read<L: Ledger>(
    alloc: Global,
    request: &Request<'_>,
    memo: &mut Memo,
    steps: &mut Steps<L>,
) -> Result<Reads, EvalRefusal>
    requires { IsSound request.now.world.now memo.old request.now.limit }
    ensures sound { IsSound request.now.world.now memo.new request.now.limit }
    ensures precedents { let before = state_of request.now.world.now memo.old request.now.limit in
        let after = state_of request.now.world.now memo.new request.now.limit in
        HasPrecedents before request.now.node.now result (steps.new - steps.old) after }
    ensures ticks { steps.old ≤ steps.new }
{
    let count = memo.count();
    match evaluate(alloc, request, memo, steps) {
        Ok(_) => match reads_of(alloc, request.world, memo, request.node) {
            Ok(reads) => return Ok(reads),
            Err(_) => {
                keep_first(memo, count);
                return Err(EvalRefusal::NoMemory);
            }
        },
        Err(why) => return Err(why),
    }
}
