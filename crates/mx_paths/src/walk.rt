//! The walk over the static paths.
ghost use Rattle.std.specs.Prelude.{◌≡◌, ◌≤◌, ◌<◌, ◌∷◌, ◌+◌, ◌++◌, ◌↔◌, [], length, IsTrue, List as Many, map, IfOk, OnOk, MatchOption, slice_get, slice_index_or, Some};
ghost use Rattle.std.specs.List.{filter_map};
ghost use Rattle.mx_value.specs.Name.{same_path};
ghost use Rattle.mx_c3.specs.Lists.{Has};
ghost use Rattle.mx_c3.specs.InOrder.{AllBelow};
ghost use Rattle.mx_model.specs.Records.{Path as Names};
ghost use Rattle.mx_model.specs.Layers.{layers, of_children};
ghost use Rattle.mx_model.specs.Sound.{IsSound, AreSpaces};
ghost use Rattle.mx_paths.specs.Names.{IsNamed};
ghost use Rattle.mx_paths.specs.Siblings.{firsts, first_named, without_first, IsLeast};
ghost use Rattle.mx_paths.specs.Table.{paths_in, Builds};
ghost use Rattle.mx_paths.specs.Walking.{IsExpanding, IsOpen, IsReady, Adds, IsWalkedTo, Closes, Expands, families_in};

use crate::families::{Siblings, families_of, precedes};
use crate::family::Family;
use crate::id::PathId;
use crate::orders::{layers_of, orders_of};
use crate::refusal::PathsRefusal;
use crate::table::Paths;
use mx_c3::lists::Order;
use mx_c3::space::SpaceId;
use mx_edit::refusal::Limit;
use mx_list::list::List;
use mx_model::layers::path_below;
use mx_model::text::ModelText;
use mx_value::label::Label;
use mx_value::node::Path;
use std::alloc::{AllocError, Global};

/// The most names of a static path.
const MOST_NAMES: usize = 64;
/// The most layers of a static path.
const MOST_LAYERS: usize = 64;
/// The most static paths of a text.
const MOST_PATHS: usize = 20_000;

/// A text, and what the walk takes its paths and their layers from.
#[derive(Drop)]
pub struct Walk<'a> {
    text: &'a ModelText,
    /// The spaces at the top.
    top: Siblings,
    /// The children of each space, by its place.
    families: Vec<Siblings>,
    /// The order of each space, by its place.
    orders: Vec<Option<Order>>,
}

impl Paths {
    /// The table of all static paths of a text.
    pub fn build(alloc: Global, text: &ModelText) -> Result<Paths, PathsRefusal>
        requires sound { IsSound text.now }
        requires named { IsNamed text.now }
        ensures { Builds text.now result }
    {
        let walk = begin(alloc, text)?;
        let mut paths = Paths::with_room(alloc, text.space_count() as usize)?;
        let mut place = 0;
        while place <= paths.count() {
            match walk.expand(alloc, &mut paths, place) {
                Ok(()) => {}
                Err(refusal) => return Err(refusal),
            }
            place += 1;
        }
        return Ok(paths);
    }
}

/// What the walk over a text takes its paths from.
fn begin(alloc: Global, text: &ModelText) -> Result<Walk<'_>, AllocError>
    requires sound { IsSound text.now }
    requires named { IsNamed text.now }
    ensures { IfOk result
        (λ w. IsReady w.text.now w.top w.families.items w.orders.items × (w.text.now ≡ text.now)) }
{
    let (top, families) = families_of(alloc, text)?;
    let orders = orders_of(alloc, text)?;
    Ok(Walk {
        text,
        top,
        families,
        orders,
    })
}

impl Walk<'_> {
    /// Adds the children of the path at a place, where 0 stands for where static paths begin.
    fn expand(&self, alloc: Global, paths: &mut Paths, place: usize) -> Result<(), PathsRefusal>
        requires ready { IsReady self.now.text.now self.now.top self.now.families.items
            self.now.orders.items }
        requires place { place ≤ length paths.old }
        requires walked { IsWalkedTo self.now.text.now paths.old place }
        ensures { Expands self.now.text.now place paths.old paths.new result }
    {
        if place == 0 {
            let mut families = Vec::new(alloc);
            families.push(self.top.family())?;
            return self.add_children(alloc, paths, &List::empty(alloc)?, families);
        }
        let id = PathId((place - 1) as u32);
        let path = paths.path_of(id);
        let layers = paths.layers(id).as_slice();
        if self.are_childless(layers) {
            return Ok(());
        }
        let families = self.families_in(alloc, layers)?;
        let parent = path.copy()?;
        return self.add_children(alloc, paths, &parent, families);
    }

    /// Whether none of these layers has a child.
    fn are_childless(&self, spaces: &[SpaceId]) -> bool
        requires { AllBelow (length self.now.families.items) spaces.now }
        ensures { IsTrue result ↔ firsts (families_in self.now.families.items spaces.now) ≡ [] }
    {
        for s in spaces {
            if !self.families[s.0 as usize].is_empty() {
                return false;
            }
        }
        true
    }

    /// The children of layers, of each by itself.
    fn families_in(&self, alloc: Global, spaces: &[SpaceId]) -> Result<Vec<Family<'_>>, AllocError>
        requires { AllBelow (length self.now.families.items) spaces.now }
        ensures { IfOk result (λ v. v.items ≡ families_in self.now.families.items spaces.now) }
    {
        let mut families = Vec::with_capacity(alloc, spaces.len())?;
        for s in spaces {
            families.push(self.families[s.0 as usize].family())?;
        }
        Ok(families)
    }

    /// Adds the children of a path that are still to come.
    fn add_children(
        &self,
        alloc: Global,
        paths: &mut Paths,
        path: &Path,
        families: Vec<Family<'_>>,
    ) -> Result<(), PathsRefusal>
        requires ready { IsReady self.now.text.now self.now.top self.now.families.items
            self.now.orders.items }
        requires open { IsOpen self.now.text.now paths.old path.now families.items }
        ensures { (done : Many Names) → IsExpanding self.now.text.now paths.old done path.now families.entry.items →
            Closes self.now.text.now done path.now paths.old paths.new result }
    {
        let mut families = families;
        let mut spaces = Vec::new(alloc);
        while let Some(name) = least_name(&families) {
            take_first(&mut families, name, &mut spaces)?;
            let child = self.child_path(alloc, path, name, &spaces)?;
            match self.add(alloc, paths, child, &spaces) {
                Ok(()) => {}
                Err(refusal) => return Err(refusal),
            }
        }
        return Ok(());
    }

    /// The path of the child of this name. It is shared with its first space, where that is defined at it.
    fn child_path(
        &self,
        alloc: Global,
        path: &Path,
        name: &Label,
        spaces: &[SpaceId],
    ) -> Result<Path, AllocError>
        requires { AllBelow (length self.now.text.now.spaces) spaces.now }
        ensures { IfOk result (λ child. child ≡ path.now ++ name.now ∷ []) }
    {
        if let [space, ..] = spaces {
            let own = self.text.path_of(*space);
            if is_below(own.as_slice(), path.as_slice(), name) {
                return own.copy();
            }
        }
        return path_below(alloc, path.as_slice(), name);
    }

    /// Adds a path with these defined children, as far as its numbers allow it.
    fn add(
        &self,
        alloc: Global,
        paths: &mut Paths,
        path: Path,
        spaces: &[SpaceId],
    ) -> Result<(), PathsRefusal>
        requires ready { IsReady self.now.text.now self.now.top self.now.families.items
            self.now.orders.items }
        requires new { Has (paths_in paths.old) path → ⊥ }
        requires spaces { AreSpaces self.now.text.now spaces.now }
        requires some { spaces.now ≡ [] → ⊥ }
        requires layered { layers self.now.text.now path
            ≡ of_children self.now.text.now spaces.now }
        ensures { Adds self.now.text.now path paths.old paths.new result }
    {
        if path.len() > MOST_NAMES {
            return Err(PathsRefusal::TooMany(Limit::Depth));
        }
        let Some(layers) = layers_of(alloc, self.text, &self.orders, spaces)? else {
            return Err(PathsRefusal::NoOrder(path));
        };
        if layers.as_slice().len() > MOST_LAYERS {
            return Err(PathsRefusal::TooMany(Limit::Layers));
        }
        if paths.count() >= MOST_PATHS {
            return Err(PathsRefusal::TooMany(Limit::Paths));
        }
        match paths.push(path, layers) {
            Ok(()) => return Ok(()),
            Err(_) => return Err(PathsRefusal::NoMemory),
        }
    }
}

/// The least of the first names.
fn least_name<'a>(families: &[Family<'a>]) -> Option<&'a Label>
    ensures { MatchOption result (firsts families.now ≡ [])
        (λ name. IsLeast (firsts families.now) name.now) }
{
    let mut least: Option<&'a Label> = None;
    for family in families {
        let Some(child) = family.first() else {
            continue;
        };
        match least {
            Some(name) => {
                if precedes(&child.name, name) {
                    least = Some(&child.name);
                }
            }
            None => least = Some(&child.name),
        }
    }
    least
}

/// Whether a path is that of these names and one more.
fn is_below(own: &[Label], names: &[Label], last: &Label) -> bool
    ensures { IsTrue result ↔ own.now ≡ names.now ++ last.now ∷ [] }
{
    let [first @ .., end] = own else {
        return false;
    };
    same_names(first, names) && *end == *last
}

/// Whether names are the same. They are compared one by one, since paths are short.
fn same_names(a: &[Label], b: &[Label]) -> bool
    ensures { result ≡ same_path a.now b.now }
{
    if a.len() != b.len() {
        return false;
    }
    for at in 0..a.len() {
        if a[at] != b[at] {
            return false;
        }
    }
    true
}

/// Takes the children of a name that stand first.
fn take_first(
    families: &mut [Family<'_>],
    name: &Label,
    spaces: &mut Vec<SpaceId>,
) -> Result<(), AllocError>
    ensures spaces { OnOk result
        (spaces.new.items ≡ filter_map (first_named name.now) families.old) }
    ensures rest { OnOk result (families.new ≡ map (without_first name.now) families.old) }
{
    spaces.clear();
    for place in 0..families.len() {
        match families[place].take(name) {
            Some(space) => spaces.push(space)?,
            None => {}
        }
    }
    Ok(())
}
