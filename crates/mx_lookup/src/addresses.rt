//! Addresses and paths that are made of others.
ghost use Rattle.std.specs.Prelude.{◌≡◌, ◌∷◌, [], ◌++◌, map, option_copied, IfOk};
ghost use Rattle.mx_value.specs.declared.value.Segment.TheVariants as segment;
ghost use Rattle.mx_meaning.specs.Namespaces as spaces;
ghost use Rattle.mx_meaning.specs.References as spec;

use mx_list::items::Items;
use mx_list::list::List;
use mx_value::copies::copy_items;
use mx_value::label::Label;
use mx_value::node::Path;
use mx_value::value::{Addr, Segment, Value};
use std::alloc::{AllocError, Global};

/// Equal segments, in a vector with room for so many more.
fn copy_segments(alloc: Global, at: &[Segment], more: usize) -> Result<Vec<Segment>, AllocError>
    ensures { IfOk result (λ v. v.items ≡ at.now) }
{
    let mut copy = Vec::with_capacity(alloc, at.len().saturating_add(more))?;
    for segment in at {
        copy.push(segment.copy(alloc)?)?;
    }
    Ok(copy)
}

/// The address with more names.
pub fn add_names(alloc: Global, at: &[Segment], names: &[Label]) -> Result<Addr, AllocError>
    ensures { IfOk result (λ a. a ≡ spec.names_added at.now names.now) }
{
    let mut segments = copy_segments(alloc, at, names.len())?;
    for name in names {
        segments.push(Segment::Name(name.copy()?))?;
    }
    List::from_vec(alloc, segments)
}

/// The address with one more name.
pub fn add_name(alloc: Global, at: &[Segment], name: &Label) -> Result<Addr, AllocError>
    ensures { IfOk result (λ a. a ≡ at.now ++ segment.Name name.now ∷ []) }
{
    let mut segments = copy_segments(alloc, at, 1)?;
    segments.push(Segment::Name(name.copy()?))?;
    List::from_vec(alloc, segments)
}

/// The address with one more item.
pub fn add_item(alloc: Global, at: &[Segment], arguments: &Items<Value>) -> Result<Addr, AllocError>
    ensures { IfOk result (λ a. a ≡ at.now ++ segment.Item arguments.now ∷ []) }
{
    let mut segments = copy_segments(alloc, at, 1)?;
    segments.push(Segment::Item(copy_items(alloc, arguments)?))?;
    List::from_vec(alloc, segments)
}

/// The address without its last segment.
pub fn parent_address(alloc: Global, at: &Addr) -> Result<Addr, AllocError>
    ensures { IfOk result (λ a. a ≡ spec.parent_of at.now) }
{
    let segments = copy_segments(alloc, all_but_last(at.as_slice()), 0)?;
    List::from_vec(alloc, segments)
}

/// Equal names, in a vector with room for so many more.
fn copy_names(alloc: Global, names: &[Label], more: usize) -> Result<Vec<Label>, AllocError>
    ensures { IfOk result (λ v. v.items ≡ names.now) }
{
    let mut copy = Vec::with_capacity(alloc, names.len().saturating_add(more))?;
    for name in names {
        copy.push(name.copy()?)?;
    }
    Ok(copy)
}

/// The path with more names.
pub fn extend_path(alloc: Global, path: &[Label], names: &[Label]) -> Result<Path, AllocError>
    ensures { IfOk result (λ p. p ≡ path.now ++ names.now) }
{
    let mut all = copy_names(alloc, path, names.len())?;
    for name in names {
        all.push(name.copy()?)?;
    }
    List::from_vec(alloc, all)
}

/// The path without its last name.
pub fn parent_path(alloc: Global, path: &Path) -> Result<Path, AllocError>
    ensures { IfOk result (λ p. p ≡ spec.parent_of path.now) }
{
    let names = copy_names(alloc, all_but_last(path.as_slice()), 0)?;
    List::from_vec(alloc, names)
}

/// The names of an address without items.
pub fn names_of(alloc: Global, at: &Addr) -> Result<Option<Path>, AllocError>
    ensures { IfOk result (λ p. p ≡ spaces.names_of at.now) }
{
    let mut names = Vec::with_capacity(alloc, at.len())?;
    for segment in at.as_slice() {
        match segment {
            Segment::Name(name) => names.push(name.copy()?)?,
            Segment::Item(_) => return Ok(None),
        }
    }
    Ok(Some(List::from_vec(alloc, names)?))
}

/// All but the last.
fn all_but_last<T>(items: &[T]) -> &[T]
    ensures { result.now ≡ spec.parent_of items.now }
{
    &items[..items.len().saturating_sub(1)]
}

/// The last name of a path of two names or more.
pub fn member_of(path: &Path) -> Option<&Label>
    ensures { option_copied result ≡ spec.member_of path.now }
{
    if path.len() < 2 {
        return None;
    }
    let Some(name) = path.last() else {
        return None;
    };
    return Some(name);
}

/// The names of a path behind those that it begins with.
fn behind<'a>(front: &[Label], path: &'a [Label]) -> Option<&'a [Label]>
    ensures { option_copied result ≡ spec.behind front.now path.now }
{
    for (at, name) in front.iter().enumerate() {
        let Some(other) = path.get(at) else {
            return None;
        };
        if *name != *other {
            return None;
        }
    }
    Some(&path[front.len()..])
}

/// The names of a target behind the path of the space that defines the reference, where it is taken
/// relative to it.
pub fn relative<'a>(owner: &[Label], fixed: bool, path: &'a [Label]) -> Option<&'a [Label]>
    ensures { option_copied result ≡ spec.relative owner.now fixed path.now }
{
    if fixed || owner.is_empty() {
        return None;
    }
    return behind(owner, path);
}
