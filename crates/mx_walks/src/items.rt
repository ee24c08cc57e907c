//! The items on a walk: each is tested, before it is asked.
ghost use Rattle.std.specs.Prelude.{◌≡◌, IfOk, List as Many, drop, length, if◌then◌else◌};
ghost use Rattle.mx_value.specs.declared.value.Segment.{Segment as Segments, out-Segment};
ghost use Rattle.mx_value.specs.declared.node.Node.TheVariants.{Item};
ghost use Rattle.mx_syntax.specs.Binding.{bound, is_wrong_count};
ghost use Rattle.mx_edit.specs.declared.key.Key.TheVariants as key;
ghost use Rattle.mx_model.specs.Keys.{key_result};
ghost use Rattle.mx_runs.specs.Inputs.{is_name};
ghost use Rattle.mx_runs.specs.Runs as outcome;
ghost use Rattle.mx_meaning.specs.Namespaces.{ends_with_name};
ghost use Rattle.mx_walks.specs.Ways.{AsksAt, Refused, item_way, stopped_way};

use mx_list::items::Items;
use mx_syntax::bind::{BindRefusal, bind};
use mx_syntax::stmt::Param;
use mx_value::copies::copy_items;
use mx_value::namespace::Namespace;
use mx_value::node::{Node, SharedNode};
use mx_value::value::{Addr, Segment, Value};
use mx_world::world::World;
use std::alloc::{AllocError, Global};

/// Where a walk stops.
#[derive(Drop)]
pub enum Stop {
    /// It came to a namespace.
    Came(Namespace),
    /// An item node is asked, behind so many segments of the walk.
    Asks(SharedNode, usize),
    /// There is no such space.
    NoSuch,
    /// The arguments of an item do not bind.
    WrongCount,
}

/// Whether a segment is a name.
fn is_name(segment: &Segment) -> bool
    ensures { result ≡ is_name (out-Segment segment.now) }
{
    match segment {
        Segment::Name(_) => true,
        Segment::Item(_) => false,
    }
}

/// Whether an item can follow an address.
pub fn ends_with_name(at: &[Segment]) -> bool
    ensures { result ≡ ends_with_name at.now }
{
    match at.last() {
        Some(segment) => is_name(segment),
        None => false,
    }
}

/// The item of a space with these parameters, as the last of so many segments.
fn bind_item(
    alloc: Global,
    at: &Addr,
    params: &[Param],
    arguments: &Items<Value>,
    passed: usize,
) -> Result<Stop, AllocError>
    ensures { IfOk result (λ stop. (segments : Many Segments) →
        stopped_way segments stop ≡
        (if is_wrong_count params.now (length arguments.now)
        then Refused outcome.WrongCount
        else AsksAt (Item at.now (bound params.now arguments.now)) (drop passed segments))) }
{
    match bind(alloc, params, copy_items(alloc, arguments)?) {
        Ok(full) => {
            let node = Node::Item(at.copy()?, full);
            return Ok(Stop::Asks(SharedNode::new(alloc, node)?, passed));
        }
        Err(BindRefusal::WrongCount) => return Ok(Stop::WrongCount),
        Err(BindRefusal::NoMemory) => return Err(AllocError),
    }
}

/// The item of a namespace, as the last of so many segments.
pub fn find_item(
    alloc: Global,
    world: &World,
    namespace: &Namespace,
    arguments: &Items<Value>,
    passed: usize,
) -> Result<Stop, AllocError>
    ensures { IfOk result (λ stop. (segments : Many Segments) →
        let found = key_result world.now (key.Params namespace.now.source) in
        stopped_way segments stop ≡
        (if ends_with_name namespace.now.at
        then item_way (drop passed segments) namespace.now arguments.now found
        else Refused outcome.NoSuch)) }
{
    if !ends_with_name(namespace.at.as_slice()) {
        return Ok(Stop::NoSuch);
    }
    match world.params(&namespace.source) {
        Some(compiled) => {
            let params = compiled.params().params.as_slice();
            return bind_item(alloc, &namespace.at, params, arguments, passed);
        }
        None => return Ok(Stop::NoSuch),
    }
}
