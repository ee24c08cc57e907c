//! The run of a formula's code.
ghost use Rattle.std.specs.Prelude.{◌≡◌, IfOk, OnOk};
ghost use Rattle.mx_runs.specs.Runs.{Run};
ghost use Rattle.mx_state.specs.Model.{model_of};
ghost use Rattle.mx_code.specs.Told.{told};
ghost use Rattle.mx_code_law.specs.Machine.{Does};
ghost use Rattle.mx_stack.specs.Flight.{on_top};
ghost use Rattle.mx_lookup.specs.Homes.{home_of};
ghost use Rattle.mx_interpreter.specs.Runs.{RunsTo, resumed};

use crate::ahead::{Ahead, run_ahead};
use crate::instructions::instruction_at;
use crate::laws::laws;
use crate::step::step;
use crate::stepped::{Resume, Stop};
use mx_code::code::Code;
use mx_edit::reply::Reply;
use mx_lookup::ending::Ending;
use mx_lookup::home::Home;
use mx_read_set::seen::Seen;
use mx_stack::slot::Slot;
use mx_stack::stack::Stack;
use mx_value::namespace::Namespace;
use mx_world::world::World;
use std::alloc::{AllocError, Global};

/// Runs the code from where the run on top of the stack stands. Whatever run this state does, what is
/// read and where it stops are those of that run.
pub fn run_code(
    alloc: Global,
    world: &World,
    home: &Home,
    code: &Code,
    stack: &mut Stack,
    seen: &mut Seen,
) -> Result<Stop, AllocError>
    ensures runs { IfOk result
        (λ stop. (run : Run) → Does (told code.now) (home_of home.now) stack.old.top run →
        RunsTo (model_of world.now) (told code.now)
        (home_of home.now) run seen.old seen.new stop stack.new.top) }
    ensures below { OnOk result (stack.new.below ≡ stack.old.below) }
{
    laws();
    for _ in 0..u64::MAX {
        let ahead = run_ahead(alloc, code, stack)?;
        if let Ahead::Faults(kind, line) = ahead {
            return Ok(Stop::Ends(Ending::Faults(kind, line)));
        }
        let instr = instruction_at(code, stack.pc())?;
        if let Some(stop) = step(alloc, world, home, instr, stack, seen)? {
            return Ok(stop);
        }
    }
    Err(AllocError)
}

/// The run on top goes on with the answer of the node that it asked.
pub fn resume(
    alloc: Global,
    stack: &mut Stack,
    resume: Resume,
    reply: &Reply,
) -> Result<(), AllocError>
    ensures { OnOk result (stack.new ≡ on_top (resumed resume reply.now stack.old.top) stack.old) }
{
    match resume {
        Resume::Value => return stack.leave(Slot::Holds(reply.value.copy(alloc)?)),
        Resume::Walk(rest) => return stack.push(Slot::Way(rest, copy_of(&reply.namespace)?)),
    }
}

/// The same namespace, where there is one.
fn copy_of(namespace: &Option<Namespace>) -> Result<Option<Namespace>, AllocError>
    ensures { IfOk result (λ c. c ≡ namespace.now) }
{
    match namespace {
        Some(namespace) => Ok(Some(namespace.copy()?)),
        None => Ok(None),
    }
}
