//! Instructions that jump.
ghost use Rattle.std.specs.Prelude.{◌≡◌, OnSome};
ghost use Rattle.mx_code.specs.declared.action.Action.TheVariants as act;
ghost use Rattle.mx_stack.specs.Came.{Came, done};

use crate::stack::Stack;
use crate::taking::{pass, pass_with, pop_value, step_on};
use crate::went::Went;
use mx_ops::truth::truth;

pub fn jump(stack: &mut Stack, count: usize) -> Went
    ensures came { Came (act.Jump count) result stack.old.top stack.new.top }
    ensures below { OnSome (done result) (stack.new.below ≡ stack.old.below) }
{
    pass(stack, count)
}

pub fn jump_back(stack: &mut Stack, count: usize) -> Went
    ensures came { Came (act.Back count) result stack.old.top stack.new.top }
    ensures below { OnSome (done result) (stack.new.below ≡ stack.old.below) }
{
    stack.go_before(count);
    Went::On
}

pub fn jump_unless(stack: &mut Stack, count: usize) -> Went
    ensures came { Came (act.JumpUnless count) result stack.old.top stack.new.top }
    ensures below { OnSome (done result) (stack.new.below ≡ stack.old.below) }
{
    let Ok(value) = pop_value(stack) else {
        return Went::NoMemory;
    };
    match truth(&value) {
        Ok(true) => step_on(stack),
        Ok(false) => pass(stack, count),
        Err(kind) => Went::Faults(kind),
    }
}

pub fn back_unless(stack: &mut Stack, count: usize) -> Went
    ensures came { Came (act.BackUnless count) result stack.old.top stack.new.top }
    ensures below { OnSome (done result) (stack.new.below ≡ stack.old.below) }
{
    let Ok(value) = pop_value(stack) else {
        return Went::NoMemory;
    };
    match truth(&value) {
        Ok(true) => step_on(stack),
        Ok(false) => {
            stack.go_before(count);
            Went::On
        }
        Err(kind) => Went::Faults(kind),
    }
}

/// Keeps the value where its truth is `decides`, and passes so many instructions, or else drops it.
pub fn decide(stack: &mut Stack, decides: bool, count: usize) -> Went
    ensures came { Came (act.Decide decides count) result stack.old.top stack.new.top }
    ensures below { OnSome (done result) (stack.new.below ≡ stack.old.below) }
{
    let Ok(value) = pop_value(stack) else {
        return Went::NoMemory;
    };
    match truth(&value) {
        Ok(truth) => {
            if truth == decides {
                pass_with(stack, count, value)
            } else {
                step_on(stack)
            }
        }
        Err(kind) => Went::Faults(kind),
    }
}
