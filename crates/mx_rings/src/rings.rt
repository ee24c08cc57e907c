//! Rings of spaces.
ghost use Rattle.std.specs.Prelude.{◌≡◌, ◌<◌, length, map, IfOk, MatchOption};
ghost use Rattle.mx_c3.specs.InOrder.{AllBelow};
ghost use Rattle.mx_model.specs.Rings.{IsRing, HasNoRing};
ghost use Rattle.mx_rings.specs.Links.{path_at};

use crate::links::links_of;
use crate::search::ring_in;
use mx_c3::lists::Order;
use mx_list::list::List;
use mx_model::text::ModelText;
use mx_value::node::Path;
use std::alloc::{AllocError, Global};

/// A ring of the defined spaces of a text, in which each leads to the next, its child or its base, and the last to the first.
/// None where there is no ring. Takes time and memory in proportion to the spaces and their bases.
pub fn ring_of(alloc: Global, text: &ModelText) -> Result<Option<List<Path>>, AllocError>
    ensures { IfOk result (λ found. MatchOption found (HasNoRing text.now) (IsRing text.now)) }
{
    let _ = text.kinds();
    let links = links_of(alloc, text)?;
    match ring_in(alloc, &links)? {
        Some(ring) => return Ok(Some(paths_of(alloc, text, &ring)?)),
        None => return Ok(None),
    }
}

/// The paths of these spaces.
fn paths_of(alloc: Global, text: &ModelText, spaces: &Order) -> Result<List<Path>, AllocError>
    requires { AllBelow (length text.now.spaces) spaces.now }
    ensures { IfOk result (λ paths. paths ≡ map (path_at text.now) spaces.now) }
{
    let mut paths = Vec::new(alloc);
    for s in spaces.as_slice() {
        paths.push(text.path_of(*s).copy()?)?;
    }
    List::from_vec(alloc, paths)
}
