//! What an attribute, a subscript and a call take from the stack, before they look anything up.
ghost use Rattle.std.specs.Prelude.{◌≡◌, List as Many, IfOk, OnOk};
ghost use Rattle.mx_code_law.specs.States.{Next, Slot as Slots, state};
ghost use Rattle.mx_code_law.specs.Finding.{Place};
ghost use Rattle.mx_code_law.specs.Machine.{on_walk};
ghost use Rattle.mx_stack.specs.Walks.{below_way, place_of};
ghost use Rattle.mx_stack.specs.Flight.{on_top};

use crate::callee::Callee;
use crate::rest::Onward;
use crate::slot::Slot;
use crate::stack::Stack;
use mx_list::items::Items;
use mx_value::namespace::Namespace;
use mx_value::value::Value;
use std::alloc::AllocError;

/// A walk under way: the segments that it has still to go, and the namespace that it came to, where
/// there is one.
#[derive(Drop)]
pub struct Way {
    pub rest: Onward,
    pub came: Option<Namespace>,
}

/// A value with its subscripts and the walk that is under way.
#[derive(Drop)]
pub struct Subscript {
    pub way: Option<Way>,
    pub of: Value,
    pub arguments: Items<Value>,
}

/// What is called, with its arguments and the walk that is under way.
#[derive(Drop)]
pub struct Call {
    pub way: Option<Way>,
    pub callee: Callee,
    pub arguments: Items<Value>,
}

/// The walk of the instruction, where one is under way.
#[inline(always)]
pub fn pop_way(stack: &mut Stack) -> Result<Option<Way>, AllocError>
    ensures taken { IfOk result
        (λ way. (go : Place → Many Slots → Next) →
        on_walk stack.old.top.stack go ≡ go (place_of way) stack.new.top.stack) }
    ensures below { OnOk result (stack.new.top.stack ≡ below_way stack.old.top.stack) }
    ensures rest { OnOk result
        (stack.new
        ≡ on_top (state stack.old.top.pc stack.new.top.stack stack.old.top.locals) stack.old) }
{
    match stack.pop() {
        Some(Slot::Way(rest, came)) => Ok(Some(Way { rest, came })),
        Some(other) => {
            stack.push(other)?;
            Ok(None)
        }
        None => Ok(None),
    }
}
