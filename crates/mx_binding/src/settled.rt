//! What the arguments of a node bind to, in the namespace that its walk came to.
ghost use Rattle.std.specs.Prelude.{IfOk};
ghost use Rattle.mx_state.specs.Model.{model_of};
ghost use Rattle.mx_value.specs.declared.node.Node.TheVariants.{Cell, Item};
ghost use Rattle.mx_binding.specs.Settles.{Binds, CellsSettle, ItemSettles, Settles};

use mx_list::items::Items;
use mx_syntax::bind::{BindRefusal, bind};
use mx_syntax::stmt::Param;
use mx_value::copies::copy_items;
use mx_value::label::Label;
use mx_value::namespace::Namespace;
use mx_value::node::Node;
use mx_value::value::{Addr, Value};
use mx_walks::items::ends_with_name;
use mx_world::world::World;
use std::alloc::{AllocError, Global};

/// What a node that is asked from outside comes to, before it is evaluated.
#[derive(Drop)]
pub enum Settled {
    /// Its bound form: the address of the namespace, and arguments in full.
    Bound(Node),
    /// There is no such node.
    NoSuch,
    /// The arguments do not bind.
    WrongCount,
}

/// Binds the arguments of a node, as it is written, in the namespace that its walk came to.
pub fn settle(
    alloc: Global,
    world: &World,
    node: &Node,
    space: &Namespace,
) -> Result<Settled, AllocError>
    ensures { IfOk result (Settles (model_of world.now) node.now space.now) }
{
    match node {
        Node::Cell(_, name, arguments) => return settle_cells(alloc, world, space, name, arguments),
        Node::Item(_, arguments) => return settle_item(alloc, world, space, arguments),
    }
}

/// Binds the arguments of cells.
fn settle_cells(
    alloc: Global,
    world: &World,
    space: &Namespace,
    name: &Label,
    arguments: &Items<Value>,
) -> Result<Settled, AllocError>
    ensures { IfOk result (CellsSettle (model_of world.now) name.now arguments.now space.now) }
{
    match world.compiled(&space.source, name) {
        Some(cells) => {
            let known = cells.formula.formula().params.as_slice();
            return bind_cells(alloc, known, &space.at, name, arguments);
        }
        None => return Ok(Settled::NoSuch),
    }
}

/// The node of cells with these parameters.
fn bind_cells(
    alloc: Global,
    known: &[Param],
    at: &Addr,
    name: &Label,
    arguments: &Items<Value>,
) -> Result<Settled, AllocError>
    ensures { IfOk result (Binds known.now arguments.now (λ full. Cell at.now name.now full)) }
{
    match bind(alloc, known, copy_items(alloc, arguments)?) {
        Ok(full) => return Ok(Settled::Bound(Node::Cell(at.copy()?, name.copy()?, full))),
        Err(BindRefusal::WrongCount) => return Ok(Settled::WrongCount),
        Err(BindRefusal::NoMemory) => return Err(AllocError),
    }
}

/// Binds the arguments of an item.
fn settle_item(
    alloc: Global,
    world: &World,
    space: &Namespace,
    arguments: &Items<Value>,
) -> Result<Settled, AllocError>
    ensures { IfOk result (ItemSettles (model_of world.now) arguments.now space.now) }
{
    if !ends_with_name(space.at.as_slice()) {
        return Ok(Settled::NoSuch);
    }
    match world.params(&space.source) {
        Some(found) => {
            let known = found.params().params.as_slice();
            return bind_item(alloc, known, &space.at, arguments);
        }
        None => return Ok(Settled::NoSuch),
    }
}

/// The item of a space with these parameters.
fn bind_item(
    alloc: Global,
    known: &[Param],
    at: &Addr,
    arguments: &Items<Value>,
) -> Result<Settled, AllocError>
    ensures { IfOk result (Binds known.now arguments.now (λ full. Item at.now full)) }
{
    match bind(alloc, known, copy_items(alloc, arguments)?) {
        Ok(full) => return Ok(Settled::Bound(Node::Item(at.copy()?, full))),
        Err(BindRefusal::WrongCount) => return Ok(Settled::WrongCount),
        Err(BindRefusal::NoMemory) => return Err(AllocError),
    }
}
