//! Instructions that leave a value or store one.
ghost use Rattle.std.specs.Prelude.{◌≡◌, ◌+◌, ◌∷◌, ℕ, get_or, IfSome, OnSome};
ghost use Rattle.std.specs.Bool.{beq};
ghost use Rattle.mx_value.specs.declared.value.Value.{out-Value};
ghost use Rattle.mx_value.specs.declared.value.Value.TheVariants.{Nothing};
ghost use Rattle.mx_meaning.specs.Expressions.{nothing_in};
ghost use Rattle.mx_code.specs.declared.action.Action.TheVariants as act;
ghost use Rattle.mx_code_law.specs.States.{Home, Holds, On, computed_next, state};
ghost use Rattle.mx_stack.specs.Came.{Came, done, went_as};

use crate::slot::Slot;
use crate::stack::Stack;
use crate::taking::{leave, pass_with, pop_value, pop_values, step_on};
use crate::tuples::make_tuple;
use crate::went::Went;
use mx_code::code::Code;
use mx_value::fault::FaultKind;
use mx_value::value::Value;
use std::alloc::Global;

/// The run goes on with the value that was computed, or ends in the fault that came of it.
#[inline(always)]
pub fn leave_made(stack: &mut Stack, made: Result<Value, FaultKind>) -> Went
    ensures came { IfSome (done result)
        (λ r. (h : Home) (line : ℕ) →
        computed_next h made line
        (λ x. On
        (state (stack.old.top.pc + 1) (Holds x ∷ stack.old.top.stack) stack.old.top.locals))
        ≡ went_as h line r stack.new.top) }
    ensures below { OnSome (done result) (stack.new.below ≡ stack.old.below) }
{
    match made {
        Ok(value) => leave(stack, Slot::Holds(value)),
        Err(kind) => Went::Faults(kind),
    }
}

/// A copy of a value that holds nothing behind a pointer.
#[inline(always)]
fn copy_in_place(value: &Value) -> Option<Value>
    ensures { IfSome result (λ c. c ≡ value.now) }
{
    match value {
        Value::Nothing => Some(Value::Nothing),
        Value::Flag(flag) => Some(Value::Flag(*flag)),
        Value::Int(number) => Some(Value::Int(*number)),
        Value::Fix(number) => Some(Value::Fix(*number)),
        Value::Text(_) | Value::Tup(_) | Value::Space(_) | Value::Cells(_) | Value::Table(_) =>
            None,
    }
}

/// Leaves the value at this place of the code's constants.
#[inline(always)]
pub fn constant(alloc: Global, code: &Code, stack: &mut Stack, place: usize) -> Went
    ensures came { Came (act.Const (get_or code.now.constants place Nothing)) result stack.old.top
        stack.new.top }
    ensures below { OnSome (done result) (stack.new.below ≡ stack.old.below) }
{
    let Some(value) = code.constants.get(place) else {
        return Went::NoMemory;
    };
    match copy_in_place(value) {
        Some(copy) => leave(stack, Slot::Holds(copy)),
        None => leave_copy(alloc, stack, value),
    }
}

/// Leaves a copy of a constant.
#[inline(never)]
fn leave_copy(alloc: Global, stack: &mut Stack, value: &Value) -> Went
    ensures came { Came (act.Const value.now) result stack.old.top stack.new.top }
    ensures below { OnSome (done result) (stack.new.below ≡ stack.old.below) }
{
    let Ok(value) = value.copy(alloc) else {
        return Went::NoMemory;
    };
    leave(stack, Slot::Holds(value))
}

/// Leaves the value of the local at a place.
#[inline(always)]
pub fn local(alloc: Global, stack: &mut Stack, place: usize) -> Went
    ensures came { Came (act.Local place) result stack.old.top stack.new.top }
    ensures below { OnSome (done result) (stack.new.below ≡ stack.old.below) }
{
    let copy = match stack.local(place) {
        Some(Slot::Holds(value)) => copy_in_place(value),
        _ => None,
    };
    match copy {
        Some(copy) => leave(stack, Slot::Holds(copy)),
        None => copy_local(alloc, stack, place),
    }
}

/// The same for any local.
#[inline(never)]
fn copy_local(alloc: Global, stack: &mut Stack, place: usize) -> Went
    ensures came { Came (act.Local place) result stack.old.top stack.new.top }
    ensures below { OnSome (done result) (stack.new.below ≡ stack.old.below) }
{
    let value = match stack.local(place) {
        Some(Slot::Holds(value)) => value.copy(alloc),
        Some(_) => return Went::Faults(FaultKind::UnsetLocal),
        None => return Went::NoMemory,
    };
    let Ok(value) = value else {
        return Went::NoMemory;
    };
    leave(stack, Slot::Holds(value))
}

pub fn tuple(alloc: Global, stack: &mut Stack, count: usize) -> Went
    ensures came { Came (act.Tuple count) result stack.old.top stack.new.top }
    ensures below { OnSome (done result) (stack.new.below ≡ stack.old.below) }
{
    let Ok(values) = pop_values(alloc, stack, count) else {
        return Went::NoMemory;
    };
    leave_made(stack, make_tuple(values))
}

pub fn drop_value(stack: &mut Stack) -> Went
    ensures came { Came act.Pop result stack.old.top stack.new.top }
    ensures below { OnSome (done result) (stack.new.below ≡ stack.old.below) }
{
    let Ok(_dropped) = pop_value(stack) else {
        return Went::NoMemory;
    };
    step_on(stack)
}

pub fn store(stack: &mut Stack, place: usize) -> Went
    ensures came { Came (act.Store place) result stack.old.top stack.new.top }
    ensures below { OnSome (done result) (stack.new.below ≡ stack.old.below) }
{
    let Ok(value) = pop_value(stack) else {
        return Went::NoMemory;
    };
    stack.set_local(place, value);
    step_on(stack)
}

/// Whether a value is None.
#[inline(always)]
fn is_none(value: &Value) -> bool
    ensures { result ≡ nothing_in (out-Value value.now) }
{
    match value {
        Value::Nothing => true,
        Value::Flag(_) | Value::Int(_) | Value::Fix(_) | Value::Text(_) | Value::Tup(_) => false,
        Value::Space(_) | Value::Cells(_) | Value::Table(_) => false,
    }
}

/// The last comparison of a chain: whether a value is None, or where `asked` is false, whether it is
/// not.
pub fn none_last(stack: &mut Stack, asked: bool) -> Went
    ensures came { Came (act.IsNone asked) result stack.old.top stack.new.top }
    ensures below { OnSome (done result) (stack.new.below ≡ stack.old.below) }
{
    let Ok(value) = pop_value(stack) else {
        return Went::NoMemory;
    };
    leave(stack, Slot::Holds(Value::Flag(is_none(&value) == asked)))
}

/// The same with others behind it, which it passes where it does not hold.
pub fn none_on(stack: &mut Stack, asked: bool, count: usize) -> Went
    ensures came { Came (act.ChainNone asked count) result stack.old.top stack.new.top }
    ensures below { OnSome (done result) (stack.new.below ≡ stack.old.below) }
{
    let Ok(value) = pop_value(stack) else {
        return Went::NoMemory;
    };
    if is_none(&value) == asked {
        return leave(stack, Slot::Holds(Value::Nothing));
    }
    pass_with(stack, count, Value::Flag(false))
}
