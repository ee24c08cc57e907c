//! Names of the formula's namespace.
ghost use Rattle.std.specs.Prelude.{◌≡◌, ◌+◌, ◌∷◌, ℕ, IfSome, OnSome};
ghost use Rattle.mx_model.specs.Keys.{key_result};
ghost use Rattle.mx_code.specs.declared.action.Action.TheVariants as act;
ghost use Rattle.mx_code_law.specs.States.{state};
ghost use Rattle.mx_stack.specs.Slots.{told};
ghost use Rattle.mx_stack.specs.Flight.{on_top};
ghost use Rattle.mx_stack.specs.Came.{done};
ghost use Rattle.mx_lookup.specs.Homes.{home_of};
ghost use Rattle.mx_interpreter.specs.Reached.{Goes};

use mx_lookup::home::Home;
use mx_lookup::names::seek_name;
use mx_ops::op::OpRefusal;
use mx_read_set::seen::Seen;
use mx_stack::callee::Callee;
use mx_stack::slot::Slot;
use mx_stack::stack::Stack;
use mx_stack::went::Went;
use mx_value::fault::FaultKind;
use mx_value::label::Label;
use mx_world::world::World;
use std::alloc::Global;

/// The run goes on behind its instruction, with one more slot.
#[inline(always)]
pub fn leave(stack: &mut Stack, slot: Slot) -> Went
    ensures { IfSome (done result)
        (λ w. (w ≡ Went.On)
        × (stack.new
        ≡ on_top
        (state (stack.old.top.pc + 1)
        (told slot ∷ stack.old.top.stack) stack.old.top.locals) stack.old)) }
{
    match stack.leave(slot) {
        Ok(()) => Went::On,
        Err(_) => Went::NoMemory,
    }
}

/// Leaves the value that a name stands for.
pub fn run_name(
    alloc: Global,
    world: &World,
    home: &Home,
    stack: &mut Stack,
    name: &Label,
    seen: &mut Seen,
) -> Went
    ensures came { Goes (key_result world.now) (home_of home.now)
        (act.Name name.now) result stack.old.top stack.new.top seen.old seen.new }
    ensures below { OnSome (done result) (stack.new.below ≡ stack.old.below) }
{
    match seek_name(alloc, world, &home.space, name, seen) {
        Ok(Callee::Called(value)) => return leave(stack, Slot::Holds(value)),
        Ok(Callee::Function(_)) => return Went::Faults(FaultKind::NoName),
        Err(OpRefusal::Fault(kind)) => return Went::Faults(kind),
        Err(OpRefusal::NoMemory) => return Went::NoMemory,
    }
}

/// Leaves what a name stands for that is called next.
pub fn run_callee(
    alloc: Global,
    world: &World,
    home: &Home,
    stack: &mut Stack,
    name: &Label,
    seen: &mut Seen,
) -> Went
    ensures came { Goes (key_result world.now) (home_of home.now)
        (act.Callee name.now) result stack.old.top stack.new.top seen.old seen.new }
    ensures below { OnSome (done result) (stack.new.below ≡ stack.old.below) }
{
    match seek_name(alloc, world, &home.space, name, seen) {
        Ok(Callee::Called(value)) => return leave(stack, Slot::Holds(value)),
        Ok(Callee::Function(function)) => return leave(stack, Slot::Calls(function)),
        Err(OpRefusal::Fault(kind)) => return Went::Faults(kind),
        Err(OpRefusal::NoMemory) => return Went::NoMemory,
    }
}
