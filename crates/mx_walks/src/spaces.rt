//! Calls of spaces.
ghost use Rattle.std.specs.Prelude.{◌≡◌, ◌++◌, ◌∷◌, [], IfOk};
ghost use Rattle.mx_value.specs.declared.value.Segment.TheVariants as segment;
ghost use Rattle.mx_edit.specs.declared.key.Key.TheVariants as key;
ghost use Rattle.mx_model.specs.Keys.{key_result};
ghost use Rattle.mx_meaning.specs.Namespaces.{is_allowed};
ghost use Rattle.mx_code_law.specs.Calling.{arguments_next, item_asked_next, space_called_next, space_sought_next};
ghost use Rattle.mx_stack.specs.Walks.{place_of};
ghost use Rattle.mx_walks.specs.Calls.{Comes, IsCalled};

use crate::called::{Called, ask_node};
use crate::going::SEGMENTS;
use crate::items::ends_with_name;
use crate::walks::{Walked, walk};
use mx_edit::key::Key;
use mx_list::items::Items;
use mx_ops::op::OpRefusal;
use mx_read_set::seen::Seen;
use mx_stack::functions::bind_arguments;
use mx_stack::walks::Way;
use mx_syntax::stmt::Param;
use mx_value::fault::FaultKind;
use mx_value::namespace::Namespace;
use mx_value::node::Node;
use mx_value::size::{size_of_items, size_of_segments};
use mx_value::value::{Addr, Value};
use mx_world::world::World;
use std::alloc::{AllocError, Global};

/// The greatest size of the space of an item, as a value.
const SIZE: u64 = 1_000_000;

/// Calls a space: its walk, then its parameters, then its item node is asked.
pub fn call_space(
    alloc: Global,
    world: &World,
    way: Option<Way>,
    at: &Addr,
    arguments: Items<Value>,
    seen: &mut Seen,
) -> Result<Called, AllocError>
    ensures { IfOk result (λ called. Comes (key_result world.now)
        (λ h line again to. space_called_next h (place_of way) at.now arguments line again to)
        called seen.old seen.new) }
{
    match walk(alloc, world, way, at)? {
        Walked::Came(namespace) => return ask_item(alloc, world, &namespace, arguments, seen),
        Walked::Asks(node, rest) => return Ok(Called::AsksOnWalk(node, rest)),
        Walked::NoSuch => return Ok(Called::NoSuch),
        Walked::WrongCount => return Ok(Called::WrongCount),
    }
}

/// The item node of a namespace is asked, where its space has parameters and the arguments bind.
fn ask_item(
    alloc: Global,
    world: &World,
    namespace: &Namespace,
    arguments: Items<Value>,
    seen: &mut Seen,
) -> Result<Called, AllocError>
    ensures { IfOk result (λ called. Comes (key_result world.now)
        (λ h line again to. space_sought_next h arguments line to namespace.now)
        called seen.old seen.new) }
{
    if !ends_with_name(namespace.at.as_slice()) {
        return Ok(Called::Faults(FaultKind::NotCallable));
    }
    seen.look(Key::Params(namespace.source.copy()?))?;
    match world.params(&namespace.source) {
        Some(compiled) => {
            let params = compiled.params().params.as_slice();
            return bind_item(alloc, params, namespace, arguments);
        }
        None => return Ok(Called::Faults(FaultKind::NotCallable)),
    }
}

/// The item node of a space with these parameters, where the arguments bind and its space may be
/// so large.
fn bind_item(
    alloc: Global,
    params: &[Param],
    namespace: &Namespace,
    arguments: Items<Value>,
) -> Result<Called, AllocError>
    ensures { IfOk result (IsCalled (λ h line again to.
        arguments_next h params.now arguments line (item_asked_next h namespace.now line to))) }
{
    match bind_arguments(alloc, params, arguments) {
        Ok(full) => {
            if !is_allowed(&namespace.at, &full) {
                return Ok(Called::Faults(FaultKind::TooLarge));
            }
            return ask_node(alloc, Node::Item(namespace.at.copy()?, full));
        }
        Err(OpRefusal::Fault(kind)) => return Ok(Called::Faults(kind)),
        Err(OpRefusal::NoMemory) => return Err(AllocError),
    }
}

/// Whether the space of an item may be so large.
pub fn is_allowed(at: &Addr, arguments: &Items<Value>) -> bool
    ensures { result ≡ is_allowed (at.now ++ segment.Item arguments.now ∷ []) }
{
    if SEGMENTS <= at.len() {
        return false;
    }
    let size = size_of_segments(at).saturating_add(size_of_items(arguments));
    return size < SIZE;
}
