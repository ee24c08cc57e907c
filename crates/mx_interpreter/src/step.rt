//! One instruction.
ghost use Rattle.std.specs.Prelude.{◌≡◌, ℕ, IfOk, IsSome, OnOk};
ghost use Rattle.mx_model.specs.Keys.{key_result};
ghost use Rattle.mx_code.specs.declared.action.Action.TheVariants as act;
ghost use Rattle.mx_code_law.specs.States.{End, Home as Where, State};
ghost use Rattle.mx_code_law.specs.Machine.{next_of};
ghost use Rattle.mx_stack.specs.Came.{done, went_as};
ghost use Rattle.mx_read_set.specs.Passed.{passed};
ghost use Rattle.mx_lookup.specs.Endings.{ending_of};
ghost use Rattle.mx_lookup.specs.Homes.{home_of};
ghost use Rattle.mx_interpreter.specs.Reached.{led_as, stepped_as};

use crate::attributes::run_attribute;
use crate::calls::{run_call, run_index};
use crate::names::{run_callee, run_name};
use crate::stepped::{Resume, Stop};
use mx_code::action::{Action, Instr};
use mx_lookup::ending::{Ending, end_with};
use mx_lookup::home::Home;
use mx_read_set::seen::Seen;
use mx_stack::returns::{return_display, return_value};
use mx_stack::slot::Slot;
use mx_stack::stack::Stack;
use mx_stack::went::Went;
use mx_walks::called::Called;
use mx_world::world::World;
use std::alloc::{AllocError, Global};

/// One instruction that looks something up or ends the run with a value: the run goes on, or stops.
#[inline(never)]
pub fn step(
    alloc: Global,
    world: &World,
    home: &Home,
    instr: Instr,
    stack: &mut Stack,
    seen: &mut Seen,
) -> Result<Option<Stop>, AllocError>
    ensures came { IfOk result
        (λ stop.
        passed (key_result world.now)
        (next_of (home_of home.now) instr.action instr.line stack.old.top) seen.old
        ≡ (stepped_as (home_of home.now) stop stack.new.top, seen.new)) }
    ensures below { OnOk result (stack.new.below ≡ stack.old.below) }
{
    let line = instr.line;
    match instr.action {
        Action::Name(name) => {
            let went = run_name(alloc, world, home, stack, &name, seen);
            return Ok(stop_after(went, line)?);
        }
        Action::Callee(name) => {
            let went = run_callee(alloc, world, home, stack, &name, seen);
            return Ok(stop_after(went, line)?);
        }
        Action::Attr(name) => {
            let called = run_attribute(alloc, world, stack, &name, seen)?;
            return Ok(stop_at(stack, called, line)?);
        }
        Action::Index(count) => {
            let called = run_index(alloc, world, &home.space, stack, count, seen)?;
            return Ok(stop_at(stack, called, line)?);
        }
        Action::Call(count) => {
            let called = run_call(alloc, world, &home.space, stack, count, seen)?;
            return Ok(stop_at(stack, called, line)?);
        }
        Action::Return => return Ok(Some(Stop::Ends(end_value(alloc, home, stack)?))),
        Action::ReturnDisplay => return Ok(Some(Stop::Ends(end_display(alloc, home, stack)?))),
        _ => return Err(AllocError),
    }
}

/// The end of a run with the value that its formula returns.
fn end_value(alloc: Global, home: &Home, stack: &mut Stack) -> Result<Ending, AllocError>
    ensures came { IfOk result
        (λ e. (line : ℕ) →
        next_of (home_of home.now) act.Return line stack.old.top
        ≡ End (ending_of home.now.node e)) }
    ensures below { OnOk result (stack.new.below ≡ stack.old.below) }
{
    let returned = return_value(stack)?;
    return Ok(end_with(alloc, home, returned)?);
}

/// The end of a run with the display that its formula returns.
fn end_display(alloc: Global, home: &Home, stack: &mut Stack) -> Result<Ending, AllocError>
    ensures came { IfOk result
        (λ e. (line : ℕ) →
        next_of (home_of home.now) act.ReturnDisplay line stack.old.top
        ≡ End (ending_of home.now.node e)) }
    ensures below { OnOk result (stack.new.below ≡ stack.old.below) }
{
    let returned = return_display(stack)?;
    return Ok(end_with(alloc, home, returned)?);
}

/// Where a run stops behind an instruction at this line, if it does.
#[inline(always)]
fn stop_after(went: Went, line: u32) -> Result<Option<Stop>, AllocError>
    ensures { IfOk result
        (λ stop. IsSome (done went)
        × ((h : Where) (s : State) → went_as h line went s ≡ stepped_as h stop s)) }
{
    match went {
        Went::On => return Ok(None),
        Went::Faults(kind) => return Ok(Some(Stop::Ends(Ending::Faults(kind, line)))),
        Went::NoMemory => return Err(AllocError),
    }
}

/// Where a run stops whose instruction at this line led to something, if it does.
fn stop_at(stack: &mut Stack, called: Called, line: u32) -> Result<Option<Stop>, AllocError>
    ensures came { IfOk result
        (λ stop. (h : Where) →
        led_as h line called stack.old.top ≡ stepped_as h stop stack.new.top) }
    ensures below { OnOk result (stack.new.below ≡ stack.old.below) }
{
    match called {
        Called::Leaves(value) => {
            stack.leave(Slot::Holds(value))?;
            return Ok(None);
        }
        Called::Asks(node) => return Ok(Some(Stop::Asks(node, Resume::Value))),
        Called::AsksOnWalk(node, rest) => {
            return Ok(Some(Stop::Asks(node, Resume::Walk(rest))));
        }
        Called::Faults(kind) => return Ok(Some(Stop::Ends(Ending::Faults(kind, line)))),
        Called::NoSuch => return Ok(Some(Stop::Ends(Ending::NoSuch))),
        Called::WrongCount => return Ok(Some(Stop::Ends(Ending::WrongCount))),
    }
}
