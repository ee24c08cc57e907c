//! Calls and subscripts.
ghost use Rattle.std.specs.Prelude.{◌≡◌, option_copied, IfOk, OnOk};
ghost use Rattle.mx_value.specs.declared.value.Value.{out-Value};
ghost use Rattle.mx_model.specs.Keys.{key_result};
ghost use Rattle.mx_code.specs.declared.action.Action.TheVariants as act;
ghost use Rattle.mx_stack.specs.Callees.{callee_of};
ghost use Rattle.mx_interpreter.specs.Reached.{LeadsTo};
ghost use Rattle.mx_interpreter.specs.Walking.{called_address, callee_address};

use crate::taking::{pop_value, pop_values, push_values};
use crate::walking::{Come, led_to, walk_first};
use mx_read_set::seen::Seen;
use mx_stack::callee::{Callee, pop_callee, push_callee};
use mx_stack::slot::Slot;
use mx_stack::stack::Stack;
use mx_stack::walks::{Call, Subscript, pop_way};
use mx_value::namespace::Namespace;
use mx_value::value::{Addr, Value};
use mx_walks::called::Called;
use mx_walks::calls::{call, subscript};
use mx_world::world::World;
use std::alloc::{AllocError, Global};

/// The address to which a call or a subscript of a value walks.
fn called_address(value: &Value) -> Option<&Addr>
    ensures { option_copied result ≡ called_address (out-Value value.now) }
{
    match value {
        Value::Cells(cells) => return Some(&cells.space),
        Value::Space(at) => return Some(at),
        Value::Nothing | Value::Flag(_) | Value::Int(_) | Value::Fix(_) => return None,
        Value::Text(_) | Value::Tup(_) | Value::Table(_) => return None,
    }
}

/// The address to which a call walks.
fn callee_address(callee: &Callee) -> Option<&Addr>
    ensures { option_copied result ≡ callee_address (callee_of callee.now) }
{
    match callee {
        Callee::Called(value) => return called_address(value),
        Callee::Function(_) => return None,
    }
}

/// A call with so many arguments. Where it asks on its walk, what it takes stays on the stack.
pub fn run_call(
    alloc: Global,
    world: &World,
    near: &Namespace,
    stack: &mut Stack,
    count: usize,
    seen: &mut Seen,
) -> Result<Called, AllocError>
    ensures came { IfOk result
        (λ c. LeadsTo (key_result world.now)
        (act.Call count) c stack.old.top stack.new.top seen.old seen.new) }
    ensures below { OnOk result (stack.new.below ≡ stack.old.below) }
{
    let way = pop_way(stack)?;
    let arguments = pop_values(alloc, stack, count)?;
    let callee = pop_callee(stack)?;
    match walk_first(alloc, world, near, way, callee_address(&callee))? {
        Come::Here(here) => {
            let taken = Call {
                way: here,
                callee,
                arguments,
            };
            let called = call(alloc, world, taken, seen)?;
            return Ok(led_to(called)?);
        }
        Come::Asks(node, rest) => {
            push_callee(stack, callee)?;
            push_values(stack, arguments)?;
            return Ok(Called::AsksOnWalk(node, rest));
        }
        Come::NoSuch => return Ok(Called::NoSuch),
        Come::WrongCount => return Ok(Called::WrongCount),
    }
}

/// A value at so many subscripts. Where it asks on its walk, what it takes stays on the stack.
pub fn run_index(
    alloc: Global,
    world: &World,
    near: &Namespace,
    stack: &mut Stack,
    count: usize,
    seen: &mut Seen,
) -> Result<Called, AllocError>
    ensures came { IfOk result
        (λ c. LeadsTo (key_result world.now)
        (act.Index count) c stack.old.top stack.new.top seen.old seen.new) }
    ensures below { OnOk result (stack.new.below ≡ stack.old.below) }
{
    let way = pop_way(stack)?;
    let arguments = pop_values(alloc, stack, count)?;
    let of = pop_value(stack)?;
    match walk_first(alloc, world, near, way, called_address(&of))? {
        Come::Here(here) => {
            let taken = Subscript {
                way: here,
                of,
                arguments,
            };
            let called = subscript(alloc, world, taken, seen)?;
            return Ok(led_to(called)?);
        }
        Come::Asks(node, rest) => {
            stack.push(Slot::Holds(of))?;
            push_values(stack, arguments)?;
            return Ok(Called::AsksOnWalk(node, rest));
        }
        Come::NoSuch => return Ok(Called::NoSuch),
        Come::WrongCount => return Ok(Called::WrongCount),
    }
}
