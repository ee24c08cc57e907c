//! The walk to the space at hand.
ghost use Rattle.std.specs.Prelude.{◌≡◌, Some, IfOk, IsTrue};
ghost use Rattle.mx_value.specs.declared.value.Segment.{out-Segment};
ghost use Rattle.mx_model.specs.Inputs.{name_in, path_of};
ghost use Rattle.mx_model.specs.Keys.{key_result};
ghost use Rattle.mx_stack.specs.Walks.{place_of};
ghost use Rattle.mx_walks.specs.Near.{IsAt};
ghost use Rattle.mx_walks.specs.Ways.{begun_way, told, walked_way};

use crate::going::SEGMENTS;
use crate::walks::{Walked, walk_from_top, walk_on};
use mx_stack::walks::Way;
use mx_value::equality::equality_laws;
use mx_value::label::Label;
use mx_value::namespace::Namespace;
use mx_value::value::{Addr, Segment};
use mx_world::world::World;
use std::alloc::{AllocError, Global};

/// The walk of an address, from the top or from where it is. Most calls stay in the space at hand: where the address is that one's,
/// its namespace is shared.
pub fn walk_near(
    alloc: Global,
    world: &World,
    near: &Namespace,
    way: Option<Way>,
    at: &Addr,
) -> Result<Walked, AllocError>
    ensures { IfOk result (λ walked.
        told walked ≡ walked_way (key_result world.now) (place_of way) at.now) }
{
    match way {
        Some(way) => return walk_on(alloc, world, way.rest, way.came),
        None => return walk_from(alloc, world, Some(near), at),
    }
}

/// The walk of an address from the top. Where it is that of a space at hand, its namespace is shared.
pub fn walk_from(
    alloc: Global,
    world: &World,
    near: Option<&Namespace>,
    at: &Addr,
) -> Result<Walked, AllocError>
    ensures { IfOk result (λ walked. told walked ≡ begun_way (key_result world.now) at.now) }
{
    if let Some(near) = near {
        if is_at(near, at) {
            return Ok(Walked::Came(near.copy()?));
        }
    }
    walk_from_top(alloc, world, at)
}

/// Whether a namespace is that of an address without an item.
fn is_at(near: &Namespace, at: &Addr) -> bool
    ensures { IsTrue result → IsAt near.now at.now }
{
    equality_laws();
    if at.is_empty() || SEGMENTS < at.len() || !near.overlay.is_empty() {
        return false;
    }
    if near.at == *at {
        return are_names(at.as_slice(), near.source.as_slice());
    }
    false
}

/// Whether segments are these names.
fn are_names(segments: &[Segment], names: &[Label]) -> bool
    ensures { IsTrue result → path_of segments.now ≡ Some names.now }
{
    if segments.len() != names.len() {
        return false;
    }
    for place in 0..segments.len() {
        if !is_name(&segments[place], &names[place]) {
            return false;
        }
    }
    true
}

/// Whether a segment is this name.
fn is_name(segment: &Segment, name: &Label) -> bool
    ensures { IsTrue result → name_in (out-Segment segment.now) ≡ Some name.now }
{
    equality_laws();
    match segment {
        Segment::Name(other) => *other == *name,
        Segment::Item(_) => false,
    }
}
