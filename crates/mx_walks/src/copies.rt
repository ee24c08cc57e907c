//! Copies of addresses and names, to be continued.
ghost use Rattle.std.specs.Prelude.{◌≡◌, IfOk};

use mx_value::label::Label;
use mx_value::value::Segment;
use std::alloc::{AllocError, Global};

/// Equal segments, in a vector of their own.
pub fn copy_segments(alloc: Global, segments: &[Segment]) -> Result<Vec<Segment>, AllocError>
    ensures { IfOk result (λ copies. copies.items ≡ segments.now) }
{
    let mut copies = Vec::with_capacity(alloc, segments.len())?;
    for segment in segments {
        copies.push(segment.copy(alloc)?)?;
    }
    Ok(copies)
}

/// The same names, in a vector of their own.
pub fn copy_names(alloc: Global, names: &[Label]) -> Result<Vec<Label>, AllocError>
    ensures { IfOk result (λ copies. copies.items ≡ names.now) }
{
    let mut copies = Vec::with_capacity(alloc, names.len())?;
    for name in names {
        copies.push(name.copy()?)?;
    }
    Ok(copies)
}
