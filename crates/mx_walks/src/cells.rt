//! Calls of cells.
ghost use Rattle.std.specs.Prelude.{IfOk};
ghost use Rattle.mx_value.specs.declared.node.Node.TheVariants.{Cell};
ghost use Rattle.mx_edit.specs.declared.key.Key.TheVariants as key;
ghost use Rattle.mx_model.specs.Keys.{key_result};
ghost use Rattle.mx_code_law.specs.States.{Ask, Look};
ghost use Rattle.mx_code_law.specs.Calling.{arguments_next, cells_asked_next, cells_called_next};
ghost use Rattle.mx_stack.specs.Walks.{place_of};
ghost use Rattle.mx_walks.specs.Calls.{Comes, IsCalled};

use crate::called::{Called, ask_node};
use crate::walks::{Walked, walk};
use mx_edit::key::Key;
use mx_list::items::Items;
use mx_ops::op::OpRefusal;
use mx_read_set::seen::Seen;
use mx_stack::functions::bind_arguments;
use mx_stack::walks::Way;
use mx_syntax::stmt::Param;
use mx_value::fault::FaultKind;
use mx_value::label::Label;
use mx_value::namespace::Namespace;
use mx_value::node::Node;
use mx_value::value::{Addr, CellsAt, Value};
use mx_world::world::World;
use std::alloc::{AllocError, Global};

/// Calls cells: the walk of their space, then their parameters, then their node is asked.
pub fn call_cells(
    alloc: Global,
    world: &World,
    way: Option<Way>,
    cells: &CellsAt,
    arguments: Items<Value>,
    seen: &mut Seen,
) -> Result<Called, AllocError>
    ensures { IfOk result (λ called. Comes (key_result world.now)
        (λ h line again to. cells_called_next h (place_of way) cells.now arguments line again to)
        called seen.old seen.new) }
{
    match walk(alloc, world, way, &cells.space)? {
        Walked::Came(namespace) => {
            return ask_cells(alloc, world, &namespace, &cells.name, arguments, seen);
        }
        Walked::Asks(node, rest) => return Ok(Called::AsksOnWalk(node, rest)),
        Walked::NoSuch => return Ok(Called::NoSuch),
        Walked::WrongCount => return Ok(Called::WrongCount),
    }
}

/// The node of cells of a namespace is asked, where there are such and their arguments bind.
fn ask_cells(
    alloc: Global,
    world: &World,
    namespace: &Namespace,
    name: &Label,
    arguments: Items<Value>,
    seen: &mut Seen,
) -> Result<Called, AllocError>
    ensures { IfOk result (λ called. Comes (key_result world.now)
        (λ h line again to. Look (key.Cells namespace.now.source name.now)
        (cells_asked_next h namespace.now name.now arguments line to))
        called seen.old seen.new) }
{
    seen.look(Key::Cells(namespace.source.copy()?, name.copy()?))?;
    match world.compiled(&namespace.source, name) {
        Some(cells) => {
            let params = cells.formula.formula().params.as_slice();
            return bind_cells(alloc, params, &namespace.at, name, arguments);
        }
        None => return Ok(Called::Faults(FaultKind::NotCallable)),
    }
}

/// The node of cells with these parameters, where the arguments bind.
fn bind_cells(
    alloc: Global,
    params: &[Param],
    at: &Addr,
    name: &Label,
    arguments: Items<Value>,
) -> Result<Called, AllocError>
    ensures { IfOk result (IsCalled (λ h line again to.
        arguments_next h params.now arguments line
        (λ vs. Ask (Cell at.now name.now vs) (λ r. to r.value)))) }
{
    match bind_arguments(alloc, params, arguments) {
        Ok(full) => return ask_node(alloc, Node::Cell(at.copy()?, name.copy()?, full)),
        Err(OpRefusal::Fault(kind)) => return Ok(Called::Faults(kind)),
        Err(OpRefusal::NoMemory) => return Err(AllocError),
    }
}
