//! Calls of the functions that a formula can always call, and the binding of arguments.
ghost use Rattle.std.specs.Prelude.{◌≡◌, ℕ, List as Many, IfSome, OnSome};
ghost use Rattle.mx_value.specs.declared.value.Value.{Value as Values};
ghost use Rattle.mx_meaning.specs.Lookup.{Function};
ghost use Rattle.mx_code_law.specs.States.{Home, Next};
ghost use Rattle.mx_code_law.specs.Finding.{Again, Place};
ghost use Rattle.mx_code_law.specs.Calling.{arguments_next, call_next};
ghost use Rattle.mx_stack.specs.Walks.{answered};
ghost use Rattle.mx_stack.specs.Came.{Continues, done, went_as};

use crate::operators::leave_given;
use crate::stack::Stack;
use crate::went::Went;
use mx_list::items::Items;
use mx_ops::apply::apply;
use mx_ops::builtin::Builtin;
use mx_ops::op::OpRefusal;
use mx_syntax::bind::{BindRefusal, bind};
use mx_syntax::stmt::Param;
use mx_value::fault::FaultKind;
use mx_value::plain::are_plain;
use mx_value::value::Value;
use std::alloc::Global;

/// Calls a function, where it and its arguments were taken from the stack.
pub fn call_function(
    alloc: Global,
    stack: &mut Stack,
    function: Builtin,
    arguments: &[Value],
) -> Went
    ensures came { IfSome (done result)
        (λ r. (h : Home) (line : ℕ) (way : Place) (back : Again) →
        call_next h way (Function function) arguments.now line back (answered stack.old.top)
        ≡ went_as h line r stack.new.top) }
    ensures below { OnSome (done result) (stack.new.below ≡ stack.old.below) }
{
    leave_given(stack, apply(alloc, function.op(), arguments))
}

/// The arguments of cells or of a space with these parameters, in full. TypeMismatch comes exactly
/// where one may be no argument, and else WrongCountInside where they do not bind.
pub fn bind_arguments(
    alloc: Global,
    params: &[Param],
    arguments: Items<Value>,
) -> Result<Items<Value>, OpRefusal>
    ensures { (h : Home) (line : ℕ) (to : Many Values → Next) →
        Continues result h line to (arguments_next h params.now arguments line to) }
{
    if !are_plain(&arguments) {
        return Err(OpRefusal::Fault(FaultKind::TypeMismatch));
    }
    match bind(alloc, params, arguments) {
        Ok(full) => Ok(full),
        Err(BindRefusal::WrongCount) => Err(OpRefusal::Fault(FaultKind::WrongCountInside)),
        Err(BindRefusal::NoMemory) => Err(OpRefusal::NoMemory),
    }
}
