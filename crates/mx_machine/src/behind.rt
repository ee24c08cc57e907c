//! Evaluations of nodes whose address leads through an item that is not held.
ghost use Rattle.std.specs.Prelude.{◌≡◌, ◌-◌, ◌≤◌, [], ℕ, IfOk, OnOk};
ghost use Rattle.mx_answers.specs.Answers.{IsLimit};
ghost use Rattle.mx_memo_laws.specs.Entries.{IsKept, IsOrdered};
ghost use Rattle.mx_memo_laws.specs.Laws.{HasGrown};
ghost use Rattle.mx_memo.specs.Memos.{Memory};
ghost use Rattle.mx_binding.specs.declared.walking.Led.TheVariants as led;
ghost use Rattle.mx_state.specs.Evaluations.{Evaluates};
ghost use Rattle.mx_state.specs.Model.{model_of};
ghost use Rattle.mx_frames.specs.Flights.{IsSound};
ghost use Rattle.mx_machine.specs.Behind.{HasPassedItem, IsOverFor, IsSomeWalking, IsWalking};
ghost use Rattle.mx_machine.specs.Seeking.{IsBehind};
ghost use Rattle.mx_machine.specs.States.{state_of};

use crate::arriving::{Arrived, go_on_there};
use crate::closing::close;
use crate::machine::Request;
use mx_binding::records::Records;
use mx_binding::walking::{Led, copy_namespace, walk_further};
use mx_frames::progress::Setting;
use mx_frames::runs::Runs;
use mx_frames::step::drive;
use mx_frames::steps::Steps;
use mx_memo::Memo;
use mx_stack::rest::Onward;
use mx_value::node::SharedNode;
use mx_value::refusal::EvalRefusal;
use mx_value::value::Value;
use std::alloc::Global;
use std::sync::ledger::Ledger;

/// Where the walk of an address came to wait for an item that is not held.
#[derive(Drop)]
pub struct Behind {
    pub item: SharedNode,
    /// The segments behind the item.
    pub rest: Onward,
    /// What is recorded of the walk so far.
    pub records: Records,
}

/// Where the walk of an address leads, with what is recorded of it.
#[derive(Drop)]
pub struct Walk {
    pub led: Led,
    pub records: Records,
}

/// The value of a node whose walk waits for an item.
pub fn evaluate_behind<L: Ledger>(
    alloc: Global,
    request: &Request<'_>,
    behind: Behind,
    memo: &mut Memo,
    steps: &mut Steps<L>,
) -> Result<Value, EvalRefusal>
    requires kept { IsKept (model_of request.now.world.now) memo.old }
    requires limit { IsLimit request.now.limit }
    requires behind { IsBehind
        (model_of request.now.world.now) memo.old.held request.now.node.now behind }
    ensures kept { IsKept (model_of request.now.world.now) memo.new }
    ensures evaluates { Evaluates
        (state_of request.now.world.now memo.old request.now.limit) request.now.node.now result
        (steps.new - steps.old) (state_of request.now.world.now memo.new request.now.limit) }
    ensures ticks { steps.old ≤ steps.new }
{
    let since = memo.last_stamp();
    let answer = run_behind(alloc, request, behind, memo, steps);
    close(memo, since, &answer);
    answer
}

/// The run of the node that is asked begins, waits for each item on its way, and goes on behind the last. Whatever was
/// computed is held.
fn run_behind<L: Ledger>(
    alloc: Global,
    request: &Request<'_>,
    behind: Behind,
    memo: &mut Memo,
    steps: &mut Steps<L>,
) -> Result<Value, EvalRefusal>
    requires kept { IsKept (model_of request.now.world.now) memo.old }
    requires limit { IsLimit request.now.limit }
    requires behind { IsBehind
        (model_of request.now.world.now) memo.old.held request.now.node.now behind }
    ensures over { IsOverFor
        (model_of request.now.world.now) request.now.node.now memo.old memo.new request.now.limit
        (steps.new - steps.old) result }
    ensures ordered { IsOrdered memo.new }
    ensures ticks { steps.old ≤ steps.new }
{
    mx_suspended::items_first::laws();
    steps.tick();
    let Behind {
        item,
        rest,
        records,
    } = behind;
    let mut walk = Walk {
        led: Led::Waits(item, rest),
        records,
    };
    for _ in 0..u64::MAX {
        let Walk { led, records } = walk;
        match led {
            Led::Waits(item, rest) => {
                let behind = Behind {
                    item,
                    rest,
                    records,
                };
                walk = pass_item(alloc, request, behind, memo, steps)?;
            }
            Led::Came(space) => {
                return go_on_there(alloc, request, Arrived { space, records }, memo, steps);
            }
            Led::NoSuch => return Err(EvalRefusal::NoSuch),
            Led::WrongCount => return Err(EvalRefusal::WrongCount),
        }
    }
    Err(EvalRefusal::NoMemory)
}

/// The item that the walk waits for is run, with those that it asks, and the walk goes on in its space.
fn pass_item<L: Ledger>(
    alloc: Global,
    request: &Request<'_>,
    behind: Behind,
    memo: &mut Memo,
    steps: &mut Steps<L>,
) -> Result<Walk, EvalRefusal>
    requires sound { IsSound memo.old [] [] }
    requires walking { IsSomeWalking
        (model_of request.now.world.now) request.now.node.now memo.old request.now.limit steps.old
        (led.Waits behind.item behind.rest) behind.records }
    ensures goes { (start : Memory) (before : ℕ) →
        IsWalking
        (model_of request.now.world.now) request.now.node.now start memo.old request.now.limit
        before steps.old (led.Waits behind.item behind.rest) behind.records →
        HasPassedItem
        (model_of request.now.world.now) request.now.node.now start memo.new request.now.limit
        before steps.new result }
    ensures sound { IfOk result (λ w. IsSound memo.new [] []) }
    ensures ordered { IsOrdered memo.new }
    ensures grown { (start : Memory) → HasGrown start memo.old → HasGrown start memo.new }
    ensures ticks { steps.old ≤ steps.new }
{
    mx_suspended::items_first::laws();
    let Behind {
        item,
        rest,
        mut records,
    } = behind;
    if request.limit <= 1 {
        return Err(EvalRefusal::TooDeep(item.get().copy(alloc)?));
    }
    let setting = Setting {
        world: request.world,
        limit: request.limit,
        below: 1,
    };
    let mut runs = Runs::new(alloc);
    let given = drive(&setting, item, memo, &mut runs, steps)?;
    let Some(body) = memo.body(given.id) else {
        unreachable!()
    };
    records.ask(&given.node, given.id)?;
    let came = copy_namespace(&body.reply.get().namespace)?;
    let led = walk_further(alloc, request.world, memo, rest, came, &mut records)?;
    Ok(Walk { led, records })
}
