//! Names that are sought through a value.
ghost use Rattle.std.specs.Prelude.{◌≡◌, ℕ, IfOk, OnOk};
ghost use Rattle.mx_value.specs.declared.value.Value.{Value as Values};
ghost use Rattle.mx_edit.specs.declared.key.Key.{Key};
ghost use Rattle.mx_edit.specs.declared.key.KeyResult.{KeyResult};
ghost use Rattle.mx_model.specs.Keys.{key_result};
ghost use Rattle.mx_code.specs.declared.action.Action.TheVariants as act;
ghost use Rattle.mx_code_law.specs.States.{Home, Next, On, State};
ghost use Rattle.mx_code_law.specs.Finding.{Again};
ghost use Rattle.mx_read_set.specs.Seen.{Seen as Readings};
ghost use Rattle.mx_read_set.specs.Passed.{passed};
ghost use Rattle.mx_lookup.specs.Goes.{Goes};
ghost use Rattle.mx_walks.specs.Calls.{called_as};
ghost use Rattle.mx_interpreter.specs.Reached.{LeadsTo};

use crate::taking::pop_value;
use mx_lookup::names::seek_through;
use mx_ops::op::OpRefusal;
use mx_read_set::seen::Seen;
use mx_stack::slot::Slot;
use mx_stack::stack::Stack;
use mx_stack::walks::pop_way;
use mx_value::fault::FaultKind;
use mx_value::label::Label;
use mx_value::value::Value;
use mx_walks::called::Called;
use mx_walks::walks::{Walked, walk};
use mx_world::world::World;
use std::alloc::{AllocError, Global};

/// A name through a value, which has to be a space. Where it asks on its walk, the value stays on
/// the stack.
pub fn run_attribute(
    alloc: Global,
    world: &World,
    stack: &mut Stack,
    name: &Label,
    seen: &mut Seen,
) -> Result<Called, AllocError>
    ensures came { IfOk result
        (λ c. LeadsTo (key_result world.now)
        (act.Attr name.now) c stack.old.top stack.new.top seen.old seen.new) }
    ensures below { OnOk result (stack.new.below ≡ stack.old.below) }
{
    let way = pop_way(stack)?;
    let of = pop_value(stack)?;
    let Value::Space(at) = of else {
        return Ok(Called::Faults(FaultKind::TypeMismatch));
    };
    match walk(alloc, world, way, &at)? {
        Walked::Came(space) => {
            let sought = seek_through(alloc, world, &space, name, seen);
            return Ok(found(sought)?);
        }
        Walked::Asks(node, rest) => {
            stack.push(Slot::Holds(Value::Space(at)))?;
            return Ok(Called::AsksOnWalk(node, rest));
        }
        Walked::NoSuch => return Ok(Called::NoSuch),
        Walked::WrongCount => return Ok(Called::WrongCount),
    }
}

/// What was found, or the fault that came of it.
fn found(found: Result<Value, OpRefusal>) -> Result<Called, AllocError>
    ensures { IfOk result (λ c. (look : Key → KeyResult) (h : Home) (line : ℕ) (again : Again) (to : Values → State) (next : Next) (old new : Readings)
        → Goes look found h line (λ v. On (to v)) next old new → passed look next old ≡ passed look (called_as h line c again to) new) }
{
    match found {
        Ok(value) => return Ok(Called::Leaves(value)),
        Err(OpRefusal::Fault(kind)) => return Ok(Called::Faults(kind)),
        Err(OpRefusal::NoMemory) => return Err(AllocError),
    }
}
