//! What instructions take from the stack, and put back where they ask on their walk.
ghost use Rattle.std.specs.Prelude.{◌≡◌, [], List as Many, IfOk, OnOk};
ghost use Rattle.mx_value.specs.declared.value.Value.{Value as Values};
ghost use Rattle.mx_code_law.specs.States.{Next, Slot as Slots, on_many};
ghost use Rattle.mx_stack.specs.Flight.{on_top, with_value};
ghost use Rattle.mx_interpreter.specs.Values.{with_values};

use mx_list::items::Items;
use mx_stack::slot::Slot;
use mx_stack::stack::Stack;
use mx_value::value::Value;
use std::alloc::{AllocError, Global};

/// The topmost value.
#[inline(always)]
pub fn pop_value(stack: &mut Stack) -> Result<Value, AllocError>
    ensures { IfOk result (λ v. stack.old ≡ on_top (with_value v stack.new.top) stack.new) }
{
    match stack.pop() {
        Some(Slot::Holds(value)) => return Ok(value),
        _ => return Err(AllocError),
    }
}

/// So many topmost values, in the order in which they came.
pub fn pop_values(
    alloc: Global,
    stack: &mut Stack,
    count: usize,
) -> Result<Items<Value>, AllocError>
    ensures taken { IfOk result
        (λ values. (go : Many Values → Many Slots → Next) →
        on_many count [] stack.old.top.stack go ≡ go values stack.new.top.stack) }
    ensures stood { IfOk result
        (λ values. stack.old ≡ on_top (with_values values stack.new.top) stack.new) }
{
    let mut values = Vec::with_capacity(alloc, count)?;
    for _ in 0..count {
        values.push(pop_value(stack)?)?;
    }
    values.reverse();
    Ok(Items::from_vec(values))
}

/// Puts values back, the last one on top.
pub fn push_values(stack: &mut Stack, values: Items<Value>) -> Result<(), AllocError>
    ensures { OnOk result (stack.new ≡ on_top (with_values values stack.old.top) stack.old) }
{
    for value in values.into_vec() {
        stack.push(Slot::Holds(value))?;
    }
    Ok(())
}
