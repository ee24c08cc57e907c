//! Where the spaces of a text lead.
ghost use Rattle.std.specs.Prelude.{◌≡◌, ◌<◌, [], None, length, IfOk, IfSome};
ghost use Rattle.mx_model.specs.Layers.{base_lists, id_of};
ghost use Rattle.mx_rings.specs.Links.{AreLinks, parent_of, with_child};

use mx_c3::lists::{BaseLists, Order};
use mx_c3::space::SpaceId;
use mx_list::items::Items;
use mx_list::list::List;
use mx_model::text::ModelText;
use mx_value::label::Label;
use mx_value::node::Path;
use std::alloc::{AllocError, Global};

/// Where each space leads: to its bases and its children, by place.
pub fn links_of(alloc: Global, text: &ModelText) -> Result<BaseLists, AllocError>
    ensures { IfOk result (AreLinks text.now) }
{
    let mut links = all_bases(alloc, text)?;
    for place in 0..text.space_count() {
        let child = SpaceId(place);
        let parent = parent_of(alloc, text, text.path_of(child))?;
        add_child(&mut links, parent, child)?;
    }
    lists_from(alloc, links)
}

/// The bases of each space.
fn all_bases(alloc: Global, text: &ModelText) -> Result<Vec<Items<SpaceId>>, AllocError>
    ensures { IfOk result (λ lists. lists.items ≡ base_lists text.now) }
{
    let mut lists = Vec::new(alloc);
    for place in 0..text.space_count() {
        let bases = text.bases_of(SpaceId(place));
        lists.push(copied(alloc, bases.as_slice())?)?;
    }
    Ok(lists)
}

/// The same spaces.
fn copied(alloc: Global, spaces: &[SpaceId]) -> Result<Items<SpaceId>, AllocError>
    ensures { IfOk result (λ it. it ≡ spaces.now) }
{
    Ok(Items::from_vec(spaces.to_vec(alloc)?))
}

/// Adds a child to the list of its parent, where it has one.
fn add_child(
    links: &mut Vec<Items<SpaceId>>,
    parent: Option<SpaceId>,
    child: SpaceId,
) -> Result<(), AllocError>
    requires { IfSome parent (λ s. s.0 < length links.old.items) }
    ensures { IfOk result (λ _. links.new.items ≡ with_child parent child links.old.items) }
{
    match parent {
        Some(s) => return links[s.0 as usize].push(child),
        None => return Ok(()),
    }
}

/// These lists of spaces.
fn lists_from(alloc: Global, links: Vec<Items<SpaceId>>) -> Result<BaseLists, AllocError>
    ensures { IfOk result (λ lists. lists ≡ links.items) }
{
    let mut lists = BaseLists::new(alloc);
    for spaces in links {
        lists.push(Order::from_vec(alloc, spaces.into_vec())?)?;
    }
    Ok(lists)
}

/// The space below which a path stands.
fn parent_of(alloc: Global, text: &ModelText, path: &Path) -> Result<Option<SpaceId>, AllocError>
    ensures { IfOk result (λ s. s ≡ parent_of text.now path.now) }
{
    match path.as_slice() {
        [] => return Ok(None),
        [_] => {
            none_above(text);
            return Ok(None);
        }
        [names @ .., _] => {
            let parent = path_from(alloc, names)?;
            return Ok(text.id_of(&parent));
        }
    }
}

/// No space stands where static paths begin. Does nothing when it runs.
fn none_above(text: &ModelText)
    ensures { id_of text.now [] ≡ None }
{
    let _ = text.kinds();
}

/// A path of these names.
fn path_from(alloc: Global, names: &[Label]) -> Result<Path, AllocError>
    ensures { IfOk result (λ path. path ≡ names.now) }
{
    let mut copies = Vec::new(alloc);
    for name in names {
        copies.push(name.copy()?)?;
    }
    List::from_vec(alloc, copies)
}
