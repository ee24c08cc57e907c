//! Walks of addresses: from segment to segment, up to the next item that has to be asked.
ghost use Rattle.std.specs.Prelude.{◌≡◌, IfOk, IfSome, drop};
ghost use Rattle.mx_model.specs.Keys.{key_result};
ghost use Rattle.mx_stack.specs.Walks.{place_of};
ghost use Rattle.mx_meaning.specs.Namespaces.{root};
ghost use Rattle.mx_walks.specs.Ways.{Came, Look, begun_way, resumed_way, told, walked_way, way_of};

use crate::copies::copy_segments;
use crate::going::{Going, SEGMENTS, go_on};
use crate::items::Stop;
use mx_list::list::List;
use mx_model::address::path_of;
use mx_stack::rest::Onward;
use mx_stack::walks::Way;
use mx_value::namespace::Namespace;
use mx_value::node::SharedNode;
use mx_value::value::{Addr, Segment};
use mx_world::world::World;
use std::alloc::{AllocError, Global};

/// What a walk leads to.
#[derive(Drop)]
pub enum Walked {
    /// The namespace of the address.
    Came(Namespace),
    /// An item node that is asked, with the segments behind it.
    Asks(SharedNode, Onward),
    /// There is no such space.
    NoSuch,
    /// The arguments of an item do not bind.
    WrongCount,
}

/// The walk of an address, from the top or from where it is.
pub fn walk(alloc: Global, world: &World, way: Option<Way>, at: &Addr) -> Result<Walked, AllocError>
    ensures { IfOk result (λ walked.
        told walked ≡ walked_way (key_result world.now) (place_of way) at.now) }
{
    match way {
        Some(way) => return walk_on(alloc, world, way.rest, way.came),
        None => return walk_from_top(alloc, world, at),
    }
}

/// On behind the answer of an item.
pub fn walk_on(
    alloc: Global,
    world: &World,
    rest: Onward,
    came: Option<Namespace>,
) -> Result<Walked, AllocError>
    ensures { IfOk result (λ walked.
        told walked ≡ resumed_way (key_result world.now) rest came) }
{
    let Some(namespace) = came else {
        return Ok(Walked::NoSuch);
    };
    let segments = rest.segments();
    if segments.is_empty() {
        return Ok(Walked::Came(namespace));
    }
    let going = Going::from_namespace(alloc, &namespace)?;
    match go_on(alloc, world, going, segments)? {
        Stop::Came(namespace) => return Ok(Walked::Came(namespace)),
        Stop::Asks(node, passed) => {
            let rest = behind(alloc, segments, passed)?;
            return Ok(Walked::Asks(node, rest));
        }
        Stop::NoSuch => return Ok(Walked::NoSuch),
        Stop::WrongCount => return Ok(Walked::WrongCount),
    }
}

/// The segments of a walk behind the first ones.
fn behind(alloc: Global, segments: &[Segment], passed: usize) -> Result<Onward, AllocError>
    ensures { IfOk result (λ rest. rest ≡ drop passed segments.now) }
{
    let all = List::from_vec(alloc, copy_segments(alloc, segments)?)?;
    Ok(Onward::behind(all, passed))
}

/// The walk of an address from the top. Where it has no item, its namespace shares it.
pub fn walk_from_top(alloc: Global, world: &World, at: &Addr) -> Result<Walked, AllocError>
    ensures { IfOk result (λ walked. told walked ≡ begun_way (key_result world.now) at.now) }
{
    if at.is_empty() {
        return Ok(Walked::NoSuch);
    }
    match static_namespace(alloc, at)? {
        Some(namespace) => return Ok(Walked::Came(namespace)),
        None => return walk_to_item(alloc, world, at),
    }
}

/// The namespace of an address of names alone, unless it is too long.
fn static_namespace(alloc: Global, at: &Addr) -> Result<Option<Namespace>, AllocError>
    ensures { IfOk result (λ found. IfSome found (λ namespace.
        (look : Look) → way_of look at.now root ≡ Came namespace)) }
{
    if SEGMENTS < at.len() {
        return Ok(None);
    }
    match path_of(alloc, at)? {
        Some(source) => {
            let overlay = List::empty(alloc)?;
            let at = at.copy()?;
            return Ok(Some(Namespace {
                at,
                source,
                overlay,
            }));
        }
        None => return Ok(None),
    }
}

/// The walk of an address from the top, up to its first item.
fn walk_to_item(alloc: Global, world: &World, at: &Addr) -> Result<Walked, AllocError>
    ensures { IfOk result (λ walked. told walked ≡ way_of (key_result world.now) at.now root) }
{
    let going = Going::from_top(alloc)?;
    match go_on(alloc, world, going, at.as_slice())? {
        Stop::Came(namespace) => return Ok(Walked::Came(namespace)),
        Stop::Asks(node, passed) => return Ok(Walked::Asks(
            node,
            Onward::behind(at.copy()?, passed),
        )),
        Stop::NoSuch => return Ok(Walked::NoSuch),
        Stop::WrongCount => return Ok(Walked::WrongCount),
    }
}
