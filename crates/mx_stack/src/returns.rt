//! Instructions that end a run with what its formula returns.
ghost use Rattle.std.specs.Prelude.{◌≡◌, ℕ, IfOk, OnOk};
ghost use Rattle.mx_code.specs.declared.action.Action.TheVariants as act;
ghost use Rattle.mx_code_law.specs.States.{End, Home};
ghost use Rattle.mx_code_law.specs.Machine.{next_of};
ghost use Rattle.mx_code_law.specs.Returning.{outcome_of};
ghost use Rattle.mx_stack.specs.Returns.{returned_of};

use crate::slot::Slot;
use crate::stack::Stack;
use crate::taking::pop_value;
use mx_list::items::Items;
use mx_value::label::Label;
use mx_value::value::Value;
use std::alloc::AllocError;

/// What a formula returns: a value, or a display of references with the base that it may have.
#[derive(Drop)]
pub enum Returned {
    Plain(Value),
    Display(Items<(Label, Value)>, Option<Box<Value>>),
}

/// Ends the run with a value.
pub fn return_value(stack: &mut Stack) -> Result<Returned, AllocError>
    ensures came { IfOk result
        (λ r. (h : Home) (line : ℕ) →
        next_of h act.Return line stack.old.top ≡ End (outcome_of h (returned_of r))) }
    ensures below { OnOk result (stack.new.below ≡ stack.old.below) }
{
    let value = pop_value(stack)?;
    Ok(Returned::Plain(value))
}

/// Ends the run with a display.
pub fn return_display(stack: &mut Stack) -> Result<Returned, AllocError>
    ensures came { IfOk result
        (λ r. (h : Home) (line : ℕ) →
        next_of h act.ReturnDisplay line stack.old.top ≡ End (outcome_of h (returned_of r))) }
    ensures below { OnOk result (stack.new.below ≡ stack.old.below) }
{
    match stack.pop() {
        Some(Slot::Shown(references, base)) => Ok(Returned::Display(references, base)),
        _ => Err(AllocError),
    }
}
