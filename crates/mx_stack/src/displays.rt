//! Instructions of displays.
ghost use Rattle.std.specs.Prelude.{◌≡◌, [], get_or, IfOk, OnSome};
ghost use Rattle.mx_code.specs.declared.action.Action.TheVariants as act;
ghost use Rattle.mx_stack.specs.Came.{Came, done};

use crate::slot::Slot;
use crate::stack::Stack;
use crate::taking::{leave, pop_value};
use crate::went::Went;
use mx_code::code::Code;
use mx_list::items::Items;
use mx_value::label::Label;
use std::alloc::{AllocError, Global};

pub fn display(alloc: Global, stack: &mut Stack) -> Went
    ensures came { Came act.Display result stack.old.top stack.new.top }
    ensures below { OnSome (done result) (stack.new.below ≡ stack.old.below) }
{
    leave(stack, Slot::Shown(Items::new(alloc), None))
}

/// The name at a place of a code.
fn name_at(code: &Code, place: usize) -> Result<Label, AllocError>
    ensures { IfOk result (λ name. name ≡ get_or code.now.names place []) }
{
    match code.names.get(place) {
        Some(name) => return name.copy(),
        None => return Err(AllocError),
    }
}

/// Adds a reference of the name at this place of the code.
pub fn refer(code: &Code, stack: &mut Stack, place: usize) -> Went
    ensures came { Came (act.Refer (get_or code.now.names place [])) result stack.old.top
        stack.new.top }
    ensures below { OnSome (done result) (stack.new.below ≡ stack.old.below) }
{
    let Ok(value) = pop_value(stack) else {
        return Went::NoMemory;
    };
    let Some(Slot::Shown(mut references, base)) = stack.pop() else {
        return Went::NoMemory;
    };
    let Ok(name) = name_at(code, place) else {
        return Went::NoMemory;
    };
    let Ok(()) = references.push((name, value)) else {
        return Went::NoMemory;
    };
    leave(stack, Slot::Shown(references, base))
}

pub fn set_base(alloc: Global, stack: &mut Stack) -> Went
    ensures came { Came act.Base result stack.old.top stack.new.top }
    ensures below { OnSome (done result) (stack.new.below ≡ stack.old.below) }
{
    let Ok(value) = pop_value(stack) else {
        return Went::NoMemory;
    };
    let Some(Slot::Shown(references, _)) = stack.pop() else {
        return Went::NoMemory;
    };
    let Ok(base) = Box::new(alloc, value) else {
        return Went::NoMemory;
    };
    leave(stack, Slot::Shown(references, Some(base)))
}
