//! What a text keeps beside its spaces: their paths and bases by place.
ghost use Rattle.std.specs.Prelude.{◌≡◌, ◌<◌, ◌^◌, [], ◌∷◌, Some, length, map, slice_get, IfOk, OnOk, IfSome, IsTrue, ◌↔◌};
ghost use Rattle.std.specs.List.{filter_map};
ghost use Rattle.indexmap.specs.IndexSet.{insert_key};
ghost use Rattle.mx_value.specs.Name.{same_path};
ghost use Rattle.mx_c3.specs.Lists.{Distinct};
ghost use Rattle.mx_model.specs.Records.{Path as Names, SpaceRecord};
ghost use Rattle.mx_model.specs.Indexed.{AreAll, AreBeside, IsFront};
ghost use Rattle.mx_model.specs.Layers.{id_in, lists_in};

use crate::spaces::Spaces;
use mx_c3::lists::{BaseLists, Order};
use mx_c3::space::SpaceId;
use mx_list::list::List;
use mx_list::shared::Shared;
use mx_members::keys::Keys;
use mx_value::node::Path;
use std::alloc::{AllocError, Global};

/// What a text keeps beside its spaces, with these.
#[derive(Clone, Copy)]
pub(crate) struct Kept<'a> {
    pub paths: &'a Keys<Path>,
    pub spaces: &'a Spaces,
    pub lists: &'a BaseLists,
}

/// The paths of spaces and the bases of each by its place, to be shared.
#[derive(Drop)]
pub(crate) struct Index {
    pub paths: Shared<Keys<Path>>,
    pub lists: Shared<BaseLists>,
}

/// The same index, shared.
pub(crate) fn copy_index(
    paths: &Shared<Keys<Path>>,
    lists: &Shared<BaseLists>,
) -> Result<Index, AllocError>
    ensures paths { IfOk result (λ i. i.paths ≡ paths.now) }
    ensures lists { IfOk result (λ i. i.lists ≡ lists.now) }
{
    let paths = paths.copy()?;
    let lists = lists.copy()?;
    Ok(Index { paths, lists })
}

/// The index of spaces, from what is kept of others where they begin with the paths of these.
pub(crate) fn index_of(alloc: Global, kept: &Kept<'_>, spaces: &Spaces) -> Result<Index, AllocError>
    requires kept { AreBeside kept.now.paths.now kept.now.lists.now kept.now.spaces.now }
    requires once { Distinct (map (λ (s : SpaceRecord). s.path) spaces.now) }
    requires few { length spaces.now < 2 ^ 32 }
    ensures { IfOk result (λ i. AreBeside i.paths i.lists spaces.now) }
{
    if are_first(kept.paths, spaces) {
        let paths = more_paths(alloc, kept.paths, spaces)?;
        let lists = all_lists(alloc, Some(kept), spaces, paths.get())?;
        return Ok(Index { paths, lists });
    }
    let paths = Shared::new(alloc, all_paths(alloc, spaces)?)?;
    let lists = all_lists(alloc, None, spaces, paths.get())?;
    return Ok(Index { paths, lists });
}

/// The paths of spaces that begin with these.
fn more_paths(
    alloc: Global,
    before: &Keys<Path>,
    spaces: &Spaces,
) -> Result<Shared<Keys<Path>>, AllocError>
    requires once { Distinct (map (λ (s : SpaceRecord). s.path) spaces.now) }
    requires front { IsFront before.now (map (λ (s : SpaceRecord). s.path) spaces.now) }
    ensures { IfOk result (λ paths. paths ≡ map (λ (s : SpaceRecord). s.path) spaces.now) }
{
    let mut paths = before.copy(alloc)?;
    for place in before.len()..spaces.len() {
        let Some(space) = spaces.get(place) else {
            unreachable!()
        };
        enter_copy(&mut paths, space.get().path())?;
    }
    Shared::new(alloc, paths)
}

/// Adds a path behind the others where it is none of them.
fn enter_copy(paths: &mut Keys<Path>, path: &Path) -> Result<(), AllocError>
    ensures { OnOk result (paths.new ≡ insert_key same_path paths.old path.now) }
{
    let path = path.copy()?;
    paths.enter(path)
}

/// Whether the first spaces have these paths.
fn are_first(paths: &Keys<Path>, spaces: &Spaces) -> bool
    ensures { IsTrue result → IsFront paths.now (map (λ (s : SpaceRecord). s.path) spaces.now) }
{
    if paths.len() > spaces.len() {
        return false;
    }
    for place in 0..paths.len() {
        if !is_path_at(paths, spaces, place) {
            return false;
        }
    }
    true
}

/// Whether the space at a place has the path there.
fn is_path_at(paths: &Keys<Path>, spaces: &Spaces, place: usize) -> bool
    ensures { IsTrue result → (path : Names) → slice_get paths.now place ≡ Some path →
        slice_get (map (λ (s : SpaceRecord). s.path) spaces.now) place ≡ Some path }
{
    let Some(space) = spaces.get(place) else {
        return false;
    };
    let Some(path) = paths.get(place) else {
        return false;
    };
    *space.get().path() == *path
}

/// The paths of spaces.
fn all_paths(alloc: Global, spaces: &Spaces) -> Result<Keys<Path>, AllocError>
    requires { Distinct (map (λ (s : SpaceRecord). s.path) spaces.now) }
    ensures { IfOk result (λ paths. paths ≡ map (λ (s : SpaceRecord). s.path) spaces.now) }
{
    let mut paths = Vec::with_capacity(alloc, spaces.len())?;
    for place in 0..spaces.len() {
        let Some(space) = spaces.get(place) else {
            unreachable!()
        };
        paths.push(space.get().path().copy()?)?;
    }
    Keys::from_slice(alloc, paths.as_slice())
}

/// The bases of spaces, each by its place among these paths. Those that are kept are shared.
fn all_lists(
    alloc: Global,
    kept: Option<&Kept<'_>>,
    spaces: &Spaces,
    paths: &Keys<Path>,
) -> Result<Shared<BaseLists>, AllocError>
    requires few { length paths.now < 2 ^ 32 }
    requires kept { IfSome kept (λ k. AreBeside k.now.paths.now k.now.lists.now k.now.spaces.now) }
    requires front { IfSome kept (λ k. IsFront k.now.paths.now paths.now) }
    ensures { IfOk result (λ lists. lists ≡ lists_in paths.now spaces.now) }
{
    let mut lists = BaseLists::new(alloc);
    for place in 0..spaces.len() {
        let Some(space) = spaces.get(place) else {
            unreachable!()
        };
        lists.push(list_of(alloc, kept, place, &space.get().bases, paths)?)?;
    }
    Shared::new(alloc, lists)
}

/// The places of the bases of the space at a place.
fn list_of(
    alloc: Global,
    kept: Option<&Kept<'_>>,
    place: usize,
    bases: &List<Path>,
    paths: &Keys<Path>,
) -> Result<Order, AllocError>
    requires few { length paths.now < 2 ^ 32 }
    requires kept { IfSome kept (λ k. AreBeside k.now.paths.now k.now.lists.now k.now.spaces.now) }
    requires front { IfSome kept (λ k. IsFront k.now.paths.now paths.now) }
    ensures { IfOk result (λ ids. ids ≡ filter_map (id_in paths.now) bases.now) }
{
    let Some(kept) = kept else {
        return ids_of(alloc, bases.as_slice(), paths);
    };
    match list_kept(kept, place, bases) {
        Some(ids) => return ids.copy(),
        None => return ids_of(alloc, bases.as_slice(), paths),
    }
}

/// The places that are kept of bases, where the space had the same ones and all are defined.
fn list_kept<'a>(kept: &Kept<'a>, place: usize, bases: &List<Path>) -> Option<&'a Order>
    requires { AreBeside kept.now.paths.now kept.now.lists.now kept.now.spaces.now }
    ensures { IfSome result (λ ids. AreAll kept.now.paths.now bases.now ids.now) }
{
    let Some(space) = kept.spaces.get(place) else {
        return None;
    };
    if !are_same(&space.get().bases, bases) {
        return None;
    }
    let ids = kept.lists.bases(SpaceId(place as u32));
    if ids.as_slice().len() != bases.len() {
        return None;
    }
    Some(ids)
}

/// Whether bases are the same.
fn are_same(bases: &List<Path>, others: &List<Path>) -> bool
    ensures { IsTrue result ↔ (bases.now ≡ others.now) }
{
    *bases == *others
}

/// The places of bases among paths. One that is not among them is left out.
fn ids_of(alloc: Global, bases: &[Path], paths: &Keys<Path>) -> Result<Order, AllocError>
    requires { length paths.now < 2 ^ 32 }
    ensures { IfOk result (λ ids. ids ≡ filter_map (id_in paths.now) bases.now) }
{
    let mut ids = Vec::new(alloc);
    for base in bases {
        match id_in(paths, base) {
            Some(id) => ids.push(id)?,
            None => {}
        }
    }
    Order::from_vec(alloc, ids)
}

/// The place of a path.
pub(crate) fn id_in(paths: &Keys<Path>, path: &Path) -> Option<SpaceId>
    requires { length paths.now < 2 ^ 32 }
    ensures { result ≡ id_in paths.now path.now }
{
    match paths.place_of(path) {
        Some(place) => Some(SpaceId(place as u32)),
        None => None,
    }
}

/// The index of no spaces.
pub(crate) fn empty_index(alloc: Global) -> Result<Index, AllocError>
    ensures paths { IfOk result (λ i. i.paths ≡ []) }
    ensures lists { IfOk result (λ i. i.lists ≡ []) }
{
    let paths = Shared::new(alloc, Keys::new(alloc)?)?;
    let lists = Shared::new(alloc, BaseLists::new(alloc))?;
    Ok(Index { paths, lists })
}

/// The index of one space without bases, of this path.
pub(crate) fn first_index(alloc: Global, path: Path) -> Result<Index, AllocError>
    ensures paths { IfOk result (λ i. i.paths ≡ path ∷ []) }
    ensures lists { IfOk result (λ i. i.lists ≡ [] ∷ []) }
{
    let paths = one_path(alloc, path)?;
    let lists = one_list(alloc)?;
    Ok(Index { paths, lists })
}

/// This path alone.
fn one_path(alloc: Global, path: Path) -> Result<Shared<Keys<Path>>, AllocError>
    ensures { IfOk result (λ paths. paths ≡ path ∷ []) }
{
    let mut paths = Keys::new(alloc)?;
    paths.enter(path)?;
    Shared::new(alloc, paths)
}

/// One space without bases.
fn one_list(alloc: Global) -> Result<Shared<BaseLists>, AllocError>
    ensures { IfOk result (λ lists. lists ≡ [] ∷ []) }
{
    let bases = Order::from_vec(alloc, Vec::new(alloc))?;
    let mut lists = BaseLists::new(alloc);
    lists.push(bases)?;
    Shared::new(alloc, lists)
}
