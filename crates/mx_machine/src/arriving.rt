//! How the run of the node that is asked goes on behind the walk of its address.
ghost use Rattle.std.specs.Prelude.{◌≡◌, ◌-◌, ◌≤◌, [], ℕ, IfOk, OnOk};
ghost use Rattle.mx_binding.specs.declared.walking.Led.TheVariants as led;
ghost use Rattle.mx_memo_laws.specs.Entries.{IsKept, IsOrdered};
ghost use Rattle.mx_memo_laws.specs.Laws.{HasGrown};
ghost use Rattle.mx_memo.specs.Memos.{Memory};
ghost use Rattle.mx_stack.specs.Flight.{no_run};
ghost use Rattle.mx_vertices.specs.Found.{IsNew};
ghost use Rattle.mx_state.specs.Model.{model_of};
ghost use Rattle.mx_frames.specs.Flights.{IsSound};
ghost use Rattle.mx_machine.specs.Behind.{EntersAs, IsOverFor, IsSomeWalking, IsWalking};

use crate::machine::Request;
use crate::seeking::asked_in;
use mx_binding::records::Records;
use mx_frames::current::{Current, Running};
use mx_frames::progress::Setting;
use mx_frames::runs::Runs;
use mx_frames::step::go_on;
use mx_frames::steps::Steps;
use mx_memo::Memo;
use mx_node_runs::runs::arrive;
use mx_value::namespace::Namespace;
use mx_value::node::SharedNode;
use mx_value::refusal::EvalRefusal;
use mx_value::value::Value;
use mx_walks::walks::Walked;
use mx_world::world::World;
use std::alloc::{AllocError, Global};
use std::sync::ledger::Ledger;

/// The namespace that the walk of an address came to, and what is recorded of the walk.
#[derive(Drop)]
pub struct Arrived {
    pub space: Namespace,
    pub records: Records,
}

/// The value of the node that is asked, whose run has come to its space. Whatever was computed is held.
pub fn go_on_there<L: Ledger>(
    alloc: Global,
    request: &Request<'_>,
    arrived: Arrived,
    memo: &mut Memo,
    steps: &mut Steps<L>,
) -> Result<Value, EvalRefusal>
    requires sound { IsSound memo.old [] [] }
    requires walking { IsSomeWalking
        (model_of request.now.world.now) request.now.node.now memo.old request.now.limit steps.old
        (led.Came arrived.space) arrived.records }
    ensures over { (start : Memory) (before : ℕ) → IsKept (model_of request.now.world.now) start →
        HasGrown start memo.old →
        IsWalking
        (model_of request.now.world.now) request.now.node.now start memo.old request.now.limit
        before steps.old (led.Came arrived.space) arrived.records →
        IsOverFor
        (model_of request.now.world.now) request.now.node.now start memo.new request.now.limit
        (steps.new - before) result }
    ensures ordered { IsOrdered memo.new }
    ensures ticks { steps.old ≤ steps.new }
{
    mx_suspended::items_first::laws();
    let node = SharedNode::new(
        alloc,
        asked_in(alloc, request.world, request.node, &arrived.space)?,
    )?;
    let mut runs = Runs::new(alloc);
    let running = enter(request.world, node, arrived, memo, &mut runs)?;
    let setting = Setting {
        world: request.world,
        limit: request.limit,
        below: 0,
    };
    let given = go_on(&setting, running, memo, &mut runs, steps)?;
    Ok(given.reply.get().value.copy(alloc)?)
}

/// The run of the node goes on in its space, with nothing below it.
fn enter(
    world: &World,
    node: SharedNode,
    arrived: Arrived,
    memo: &mut Memo,
    runs: &mut Runs,
) -> Result<Running, AllocError>
    requires new { IsNew memo.old.held node }
    requires idle { memo.old.begun ≡ [] }
    requires stack { runs.old.stack ≡ no_run }
    ensures enters { IfOk result
        (EntersAs (model_of world.now) memo.old memo.new node arrived runs.new.stack) }
    ensures held { memo.new.held ≡ memo.old.held }
    ensures last { memo.new.last ≡ memo.old.last }
    ensures frames { runs.new.frames.items ≡ runs.old.frames.items }
{
    let alloc = runs.alloc;
    let Ok(()) = memo.begin(&node) else {
        return Err(AllocError);
    };
    let Arrived { space, mut records } = arrived;
    let walked = Walked::Came(space);
    let halt = arrive(
        alloc,
        world,
        &node,
        walked,
        &mut records.seen,
        &mut runs.stack,
    )?;
    let current = Current { node, records };
    Ok(Running { current, halt })
}
