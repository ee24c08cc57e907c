//! The code of a formula, up to where the run halts.
ghost use Rattle.std.specs.Prelude.{◌≡◌, IfOk, OnOk};
ghost use Rattle.mx_code.specs.Told.{told};
ghost use Rattle.mx_code_law.specs.Machine.{Does};
ghost use Rattle.mx_lookup.specs.Homes.{home_of};
ghost use Rattle.mx_runs.specs.Runs.{Run};
ghost use Rattle.mx_state.specs.Model.{model_of};
ghost use Rattle.mx_node_runs.specs.Halts.{HaltsAt};

use crate::halt::{Halt, InCode, Waiting};
use mx_code::code::Code;
use mx_interpreter::run::run_code;
use mx_interpreter::stepped::Stop;
use mx_list::shared::Shared;
use mx_lookup::home::Home;
use mx_read_set::seen::Seen;
use mx_stack::stack::Stack;
use mx_world::world::World;
use std::alloc::{AllocError, Global};

/// Runs the code from where it stands on the stack.
pub fn proceed(
    alloc: Global,
    world: &World,
    home: Shared<Home>,
    code: Shared<Code>,
    seen: &mut Seen,
    stack: &mut Stack,
) -> Result<Halt, AllocError>
    ensures halts { IfOk result (λ halt. (run : Run) → Does (told code) (home_of home) stack.old.top run
        → HaltsAt (model_of world.now) home.node run seen.old seen.new halt stack.new.top) }
    ensures below { OnOk result (stack.new.below ≡ stack.old.below) }
{
    let here = home.get();
    match run_code(alloc, world, here, code.get(), stack, seen)? {
        Stop::Ends(ending) => return Ok(Halt::Ends(ending)),
        Stop::Asks(asked, resume) => {
            let waiting = Waiting::InCode(InCode { home, code, resume });
            return Ok(Halt::Asks(asked, waiting));
        }
    }
}
