//! The arguments of a formula, bound to its parameters.
ghost use Rattle.std.specs.Prelude.{◌≡◌, false, length, map, IfOk, IsTrue};
ghost use Rattle.mx_value.specs.Normal.{normal_of};
ghost use Rattle.mx_syntax.specs.Binding.{bound, is_wrong_count};
ghost use Rattle.mx_meaning.specs.Nodes.{arguments_of};
ghost use Rattle.mx_node_runs.specs.Begins.{Begins};

use mx_code::compiled::Compiled;
use mx_list::items::Items;
use mx_stack::stack::Stack;
use mx_syntax::bind::{BindRefusal, bind};
use mx_syntax::stmt::Param;
use mx_value::copies::copy_items;
use mx_value::label::Label;
use mx_value::value::Value;
use std::alloc::{AllocError, Global};

/// The run on top begins the code of a formula, where the arguments bind. Those that are bound already
/// are not copied to be bound.
pub fn begin_formula(
    alloc: Global,
    compiled: &Compiled,
    arguments: &Items<Value>,
    stack: &mut Stack,
) -> Result<bool, AllocError>
    ensures { IfOk result (λ binds.
        Begins compiled.now.params compiled.now.body arguments.now binds stack.old stack.new) }
{
    let params = compiled.formula().params.as_slice();
    let size = compiled.code().size;
    if are_bound(params, arguments.as_slice()) {
        stack.enter(alloc, arguments.as_slice(), size)?;
        return Ok(true);
    }
    match bind(alloc, params, copy_items(alloc, arguments)?) {
        Ok(full) => {
            stack.enter(alloc, full.as_slice(), size)?;
            return Ok(true);
        }
        Err(BindRefusal::WrongCount) => return Ok(false),
        Err(BindRefusal::NoMemory) => return Err(AllocError),
    }
}

/// Whether there is an argument for each parameter, each in normal form already. Decimal numbers and
/// tuples are not looked into.
fn are_bound(params: &[Param], arguments: &[Value]) -> bool
    ensures { IsTrue result → (is_wrong_count params.now (length arguments.now) ≡ false)
        × (bound params.now arguments.now ≡ arguments.now) }
{
    params.len() == arguments.len() && are_normal(arguments)
}

fn are_normal(values: &[Value]) -> bool
    ensures { IsTrue result → map normal_of values.now ≡ values.now }
{
    for value in values {
        if !is_normal(value) {
            return false;
        }
    }
    true
}

fn is_normal(value: &Value) -> bool
    ensures { IsTrue result → normal_of value.now ≡ value.now }
{
    match value {
        Value::Fix(_) => false,
        Value::Tup(_) => false,
        _ => true,
    }
}

/// The parameters, each by its name with its argument.
pub fn name_arguments(
    alloc: Global,
    params: &[Param],
    arguments: &[Value],
) -> Result<Items<(Label, Value)>, AllocError>
    ensures { IfOk result (λ given. given ≡ arguments_of params.now arguments.now) }
{
    let mut given = Items::with_capacity(alloc, arguments.len())?;
    for (place, param) in params.iter().enumerate() {
        let Some(argument) = arguments.get(place) else {
            return Ok(given);
        };
        given.push((param.name.copy()?, argument.copy(alloc)?))?;
    }
    Ok(given)
}
