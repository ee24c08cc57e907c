//! Calls and subscripts.
ghost use Rattle.std.specs.Prelude.{◌∷◌, IfOk};
ghost use Rattle.mx_value.specs.declared.value.Value.{out-Value};
ghost use Rattle.mx_model.specs.Keys.{key_result};
ghost use Rattle.mx_ops.specs.Answers.{Answers};
ghost use Rattle.mx_ops.specs.Table.{gives};
ghost use Rattle.mx_code_law.specs.Calling.{call_next, index_next, value_called_next};
ghost use Rattle.mx_stack.specs.Callees.{callee_of};
ghost use Rattle.mx_stack.specs.Walks.{place_of};
ghost use Rattle.mx_walks.specs.Calls.{Comes};

use crate::called::{Called, leave_given};
use crate::cells::call_cells;
use crate::spaces::call_space;
use crate::tables::look_in_table;
use mx_list::items::Items;
use mx_ops::apply::apply;
use mx_ops::op::OpRefusal;
use mx_read_set::seen::Seen;
use mx_stack::callee::Callee;
use mx_stack::walks::{Call, Subscript, Way};
use mx_syntax::op::Op;
use mx_value::fault::FaultKind;
use mx_value::value::Value;
use mx_world::world::World;
use std::alloc::{AllocError, Global};

/// A call.
pub fn call(alloc: Global, world: &World, call: Call, seen: &mut Seen) -> Result<Called, AllocError>
    ensures came { IfOk result (λ called. Comes (key_result world.now)
        (λ h line again to.
        call_next h (place_of call.way) (callee_of call.callee) call.arguments line again to)
        called seen.old seen.new) }
{
    let Call {
        way,
        callee,
        arguments,
    } = call;
    match callee {
        Callee::Called(value) => return call_value(alloc, world, way, value, arguments, seen),
        Callee::Function(function) => {
            return leave_given(apply(alloc, function.op(), arguments.as_slice()));
        }
    }
}

/// A call of a value: cells and spaces are called, and no other value is.
fn call_value(
    alloc: Global,
    world: &World,
    way: Option<Way>,
    value: Value,
    arguments: Items<Value>,
    seen: &mut Seen,
) -> Result<Called, AllocError>
    ensures { IfOk result (λ called. Comes (key_result world.now)
        (λ h line again to.
        value_called_next h (place_of way) (out-Value value) arguments line again to)
        called seen.old seen.new) }
{
    match value {
        Value::Cells(cells) => return call_cells(alloc, world, way, &cells, arguments, seen),
        Value::Space(at) => return call_space(alloc, world, way, &at, arguments, seen),
        Value::Nothing => return Ok(Called::Faults(FaultKind::NotCallable)),
        Value::Flag(_) => return Ok(Called::Faults(FaultKind::NotCallable)),
        Value::Int(_) => return Ok(Called::Faults(FaultKind::NotCallable)),
        Value::Fix(_) => return Ok(Called::Faults(FaultKind::NotCallable)),
        Value::Text(_) => return Ok(Called::Faults(FaultKind::NotCallable)),
        Value::Tup(_) => return Ok(Called::Faults(FaultKind::NotCallable)),
        Value::Table(_) => return Ok(Called::Faults(FaultKind::NotCallable)),
    }
}

/// Subscripts: cells and spaces are called with them, and tuples, texts and tables have items.
pub fn subscript(
    alloc: Global,
    world: &World,
    subscript: Subscript,
    seen: &mut Seen,
) -> Result<Called, AllocError>
    ensures came { IfOk result (λ called. Comes (key_result world.now)
        (λ h line again to.
        index_next h (place_of subscript.way) subscript.of subscript.arguments line again to)
        called seen.old seen.new) }
{
    let Subscript { way, of, arguments } = subscript;
    match of {
        Value::Cells(cells) => return call_cells(alloc, world, way, &cells, arguments, seen),
        Value::Space(at) => return call_space(alloc, world, way, &at, arguments, seen),
        Value::Table(name) => {
            return look_in_table(alloc, world, &name, arguments.as_slice(), seen);
        }
        Value::Tup(items) => return leave_given(index_in(alloc, Value::Tup(items), arguments)),
        Value::Text(text) => return leave_given(index_in(alloc, Value::Text(text), arguments)),
        Value::Nothing => return Ok(Called::Faults(FaultKind::NotCallable)),
        Value::Flag(_) => return Ok(Called::Faults(FaultKind::NotCallable)),
        Value::Int(_) => return Ok(Called::Faults(FaultKind::NotCallable)),
        Value::Fix(_) => return Ok(Called::Faults(FaultKind::NotCallable)),
    }
}

/// The item of a tuple or the byte of a text at these subscripts.
fn index_in(alloc: Global, of: Value, subscripts: Items<Value>) -> Result<Value, OpRefusal>
    ensures { Answers result (gives Op.Index (of ∷ subscripts)) }
{
    if subscripts.len() != 1 {
        return Err(OpRefusal::Fault(FaultKind::TypeMismatch));
    }
    let mut operands = subscripts.into_vec();
    let Some(subscript) = operands.pop() else {
        unreachable!()
    };
    let pair = [of, subscript];
    return apply(alloc, Op::Index, pair.as_slice());
}
