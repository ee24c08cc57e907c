//! What instructions take from the stack and leave on it. Code that does a formula never takes what is
//! not there.
ghost use Rattle.std.specs.Prelude.{◌≡◌, ◌+◌, ◌∷◌, [], List as Many, IfOk, IfSome, OnOk};
ghost use Rattle.mx_value.specs.declared.value.Value.{Value as Values};
ghost use Rattle.mx_code_law.specs.States.{Slot as Slots, Next, on_many, state};
ghost use Rattle.mx_stack.specs.Slots.{told};
ghost use Rattle.mx_stack.specs.Flight.{at_back, at_past, on_top, with_slot, with_value};
ghost use Rattle.mx_stack.specs.Came.{done};

use crate::slot::Slot;
use crate::stack::Stack;
use crate::went::Went;
use mx_list::items::Items;
use mx_value::value::Value;
use std::alloc::{AllocError, Global};

/// The topmost value.
#[inline(always)]
pub fn pop_value(stack: &mut Stack) -> Result<Value, AllocError>
    ensures { IfOk result (λ v. stack.old ≡ on_top (with_value v stack.new.top) stack.new) }
{
    match stack.pop() {
        Some(Slot::Holds(value)) => Ok(value),
        _ => Err(AllocError),
    }
}

/// The two topmost values, the lower one first.
#[inline(always)]
pub fn pop_two(stack: &mut Stack) -> Result<(Value, Value), AllocError>
    ensures { IfOk result
        (λ p. stack.old ≡ on_top (with_value p.1 (with_value p.0 stack.new.top)) stack.new) }
{
    let right = pop_value(stack)?;
    let left = pop_value(stack)?;
    Ok((left, right))
}

/// So many topmost values, in the order in which they came.
pub fn pop_values(
    alloc: Global,
    stack: &mut Stack,
    count: usize,
) -> Result<Items<Value>, AllocError>
    ensures taken { IfOk result
        (λ values. (go : Many Values → Many Slots → Next) →
        on_many count [] stack.old.top.stack go ≡ go values stack.new.top.stack) }
    ensures rest { OnOk result
        (stack.new
        ≡ on_top (state stack.old.top.pc stack.new.top.stack stack.old.top.locals) stack.old) }
{
    let mut values = Vec::new(alloc);
    for _ in 0..count {
        values.push(pop_value(stack)?)?;
    }
    values.reverse();
    Ok(Items::from_vec(values))
}

/// The run goes on with one more slot.
#[inline(always)]
pub fn leave(stack: &mut Stack, slot: Slot) -> Went
    ensures { IfSome (done result)
        (λ r. (r ≡ Went.On)
        × (stack.new
        ≡ on_top
        (state (stack.old.top.pc + 1)
        (told slot ∷ stack.old.top.stack) stack.old.top.locals) stack.old)) }
{
    match stack.leave(slot) {
        Ok(()) => Went::On,
        Err(_) => Went::NoMemory,
    }
}

/// The run goes on behind its instruction.
#[inline(always)]
pub fn step_on(stack: &mut Stack) -> Went
    ensures { IfSome (done result)
        (λ r. (r ≡ Went.On)
        × (stack.new
        ≡ on_top
        (state (stack.old.top.pc + 1) stack.old.top.stack stack.old.top.locals) stack.old)) }
{
    match stack.advance() {
        Ok(()) => Went::On,
        Err(_) => Went::NoMemory,
    }
}

/// The run passes so many instructions.
#[inline(always)]
pub fn pass(stack: &mut Stack, count: usize) -> Went
    ensures { IfSome (done result)
        (λ r. (r ≡ Went.On) × (stack.new ≡ on_top (at_past count stack.old.top) stack.old)) }
{
    match stack.pass(count) {
        Ok(()) => Went::On,
        Err(_) => Went::NoMemory,
    }
}

/// The run passes so many instructions with one more value.
#[inline(always)]
pub fn pass_with(stack: &mut Stack, count: usize, value: Value) -> Went
    ensures { IfSome (done result)
        (λ r. (r ≡ Went.On)
        × (stack.new ≡ on_top (at_past count (with_value value stack.old.top)) stack.old)) }
{
    let Ok(()) = stack.push(Slot::Holds(value)) else {
        return Went::NoMemory;
    };
    pass(stack, count)
}
