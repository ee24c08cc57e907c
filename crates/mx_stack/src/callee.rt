//! What is called.
ghost use Rattle.std.specs.Prelude.{◌≡◌, IfOk, OnOk};
ghost use Rattle.mx_code_law.specs.States.{slot_of};
ghost use Rattle.mx_code_law.specs.Machine.{deciding_truth};
ghost use Rattle.mx_stack.specs.Callees.{callee_of};
ghost use Rattle.mx_stack.specs.Flight.{on_top, with_slot};

use crate::slot::Slot;
use crate::stack::Stack;
use mx_ops::builtin::Builtin;
use mx_value::value::Value;
use std::alloc::AllocError;

/// What is called: a value, or a function that a formula can always call.
#[derive(Drop)]
pub enum Callee {
    Called(Value),
    Function(Builtin),
}

/// What is called, from the top of the stack.
#[inline(always)]
pub fn pop_callee(stack: &mut Stack) -> Result<Callee, AllocError>
    ensures { IfOk result
        (λ c. stack.old ≡ on_top (with_slot (slot_of (callee_of c)) stack.new.top) stack.new) }
{
    match stack.pop() {
        Some(Slot::Holds(value)) => Ok(Callee::Called(value)),
        Some(Slot::Calls(function)) => Ok(Callee::Function(function)),
        _ => Err(AllocError),
    }
}

/// Puts what is called back on the stack.
#[inline(always)]
pub fn push_callee(stack: &mut Stack, callee: Callee) -> Result<(), AllocError>
    ensures { OnOk result
        (stack.new ≡ on_top (with_slot (slot_of (callee_of callee)) stack.old.top) stack.old) }
{
    match callee {
        Callee::Called(value) => stack.push(Slot::Holds(value)),
        Callee::Function(function) => stack.push(Slot::Calls(function)),
    }
}

/// The truth that decides, where `any` or `all` is called.
#[inline(always)]
pub fn decides(callee: &Callee) -> Option<bool>
    ensures { result ≡ deciding_truth (callee_of callee.now) }
{
    let Callee::Function(function) = callee else {
        return None;
    };
    match function {
        Builtin::Any => Some(true),
        Builtin::All => Some(false),
        Builtin::Abs | Builtin::Fixed | Builtin::Int | Builtin::Len | Builtin::Max => None,
        Builtin::Min | Builtin::Nroot | Builtin::Range | Builtin::Round | Builtin::Str => None,
        Builtin::Sum | Builtin::Tuple => None,
    }
}
