//! Addresses without an item.
ghost use Rattle.std.specs.Prelude.{◌≡◌, IfOk};
ghost use Rattle.mx_model.specs.Inputs.{path_of};

use mx_list::list::List;
use mx_value::node::Path;
use mx_value::value::{Addr, Segment};
use std::alloc::{AllocError, Global};

/// The names of an address without an item.
pub fn path_of(alloc: Global, at: &Addr) -> Result<Option<Path>, AllocError>
    ensures { IfOk result (λ path. path ≡ path_of at.now) }
{
    let mut names = Vec::new(alloc);
    for segment in at.as_slice() {
        match segment {
            Segment::Name(name) => names.push(name.copy()?)?,
            Segment::Item(_) => return Ok(None),
        }
    }
    Ok(Some(List::from_vec(alloc, names)?))
}
