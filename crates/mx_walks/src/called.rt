//! What a call or a subscript leads to.
ghost use Rattle.std.specs.Prelude.{IfOk};
ghost use Rattle.mx_ops.specs.Answers.{Answer};
ghost use Rattle.mx_code_law.specs.States.{Ask, On, computed_next};
ghost use Rattle.mx_stack.specs.Came.{Gives};
ghost use Rattle.mx_walks.specs.Calls.{IsCalled};

use mx_ops::op::OpRefusal;
use mx_stack::rest::Onward;
use mx_value::fault::FaultKind;
use mx_value::node::{Node, SharedNode};
use mx_value::value::Value;
use std::alloc::{AllocError, Global};

/// What a call or a subscript leads to.
#[derive(Drop)]
pub enum Called {
    /// A value.
    Leaves(Value),
    /// A node that is asked for its value.
    Asks(SharedNode),
    /// An item node that is asked on the walk, with the segments behind it.
    AsksOnWalk(SharedNode, Onward),
    /// A fault.
    Faults(FaultKind),
    /// There is no such space.
    NoSuch,
    /// The arguments of an item on the walk do not bind.
    WrongCount,
}

/// A node is asked for its value. It is shared from here on, and so hashed once.
pub fn ask_node(alloc: Global, node: Node) -> Result<Called, AllocError>
    ensures { IfOk result (IsCalled (λ h line again to. Ask node (λ r. to r.value))) }
{
    Ok(Called::Asks(SharedNode::new(alloc, node)?))
}

/// What an operator gave, or the fault that came of it.
pub fn leave_given(given: Result<Value, OpRefusal>) -> Result<Called, AllocError>
    ensures { IfOk result (λ called. (answer : Answer) → Gives given answer
        → IsCalled (λ h line again to. computed_next h answer line (λ v. On (to v))) called) }
{
    match given {
        Ok(value) => return Ok(Called::Leaves(value)),
        Err(OpRefusal::Fault(kind)) => return Ok(Called::Faults(kind)),
        Err(OpRefusal::NoMemory) => return Err(AllocError),
    }
}
