//! The defined children of all spaces.
ghost use Rattle.std.specs.Prelude.{◌≡◌, ◌<◌, ◌+◌, [], length, replicate, None, IfOk, OnOk, IsTrue, ◌↔◌};
ghost use Rattle.mx_model.specs.Sound.{IsSound};
ghost use Rattle.std.specs.Ordering.{nat_cmp};
ghost use Rattle.std.specs.declared.cmp.Ordering.TheVariants.{Less};
ghost use Rattle.std.specs.Cmp.Lexicographic.{slice_cmp};
ghost use Rattle.mx_paths.specs.Names.{IsNamed};
ghost use Rattle.mx_paths.specs.Siblings.{Precedes, IsRising, named};
ghost use Rattle.mx_paths.specs.Sorting.{IsEntered, IsPlace, AreSorted};

use crate::child::Child;
use crate::family::Family;
use mx_c3::space::SpaceId;
use mx_list::list::List;
use mx_model::text::ModelText;
use mx_value::label::Label;
use mx_value::node::Path;
use std::alloc::{AllocError, Global};
use std::marker::Model;

/// Children in the order of their names.
#[derive(Drop)]
pub struct Siblings {
    children: Vec<Child>,
}

impl Model for Siblings {
    ghost use Rattle.std.specs.Prelude.{List as Many};
    ghost use Rattle.mx_paths.specs.declared.child.Child.{Child};

    ghost Value = { Many Child };

    ghost view = { λ s. s.children.items };
}

impl Siblings {
    fn new(alloc: Global) -> Siblings
        ensures { result ≡ [] }
    {
        Siblings {
            children: Vec::new(alloc),
        }
    }

    pub fn is_empty(&self) -> bool
        ensures { IsTrue result ↔ (self.now ≡ []) }
    {
        self.children.is_empty()
    }

    /// The same children, to be gone through.
    pub fn family(&self) -> Family<'_>
        ensures { result ≡ self.now }
    {
        Family::new(&self.children)
    }

    /// Enters a child of a new name.
    fn enter(&mut self, child: Child) -> Result<(), AllocError>
        requires rising { IsRising self.old }
        requires new { named child.name self.old ≡ None }
        ensures { OnOk result (IsEntered child self.old self.new) }
    {
        let place = place_of(&self.children, &child.name);
        self.children.insert(place, child)?;
        Ok(())
    }
}

/// The spaces at the top, and the children of each space by its place.
pub fn families_of(alloc: Global, text: &ModelText) -> Result<(Siblings, Vec<Siblings>), AllocError>
    requires sound { IsSound text.now }
    requires named { IsNamed text.now }
    ensures { IfOk result
        (λ both. AreSorted text.now (length text.now.spaces) both.0 both.1.items) }
{
    let mut tops = Siblings::new(alloc);
    let mut families = none_of(alloc, text.space_count() as usize)?;
    for place in 0..text.space_count() {
        enter_space(alloc, text, SpaceId(place), &mut tops, &mut families)?;
    }
    Ok((tops, families))
}

/// So many families without children.
fn none_of(alloc: Global, count: usize) -> Result<Vec<Siblings>, AllocError>
    ensures { IfOk result (λ v. v.items ≡ replicate count []) }
{
    let mut families = Vec::with_capacity(alloc, count)?;
    for _ in 0..count {
        families.push(Siblings::new(alloc))?;
    }
    Ok(families)
}

/// Enters a space among the children of its parent.
fn enter_space(
    alloc: Global,
    text: &ModelText,
    space: SpaceId,
    tops: &mut Siblings,
    families: &mut Vec<Siblings>,
) -> Result<(), AllocError>
    requires sound { IsSound text.now }
    requires named { IsNamed text.now }
    requires space { space.0 < length text.now.spaces }
    requires sorted { AreSorted text.now space.0 tops.old families.old.items }
    ensures { OnOk result (AreSorted text.now (space.0 + 1) tops.new families.new.items) }
{
    let [names @ .., last] = text.path_of(space).as_slice() else {
        unreachable!()
    };
    let child = Child {
        name: last.copy()?,
        space,
    };
    if names.is_empty() {
        return tops.enter(child);
    }
    match text.id_of(&copy_names(alloc, names)?) {
        Some(parent) => return families[parent.0 as usize].enter(child),
        None => return Ok(()),
    }
}

/// A path of these names.
fn copy_names(alloc: Global, names: &[Label]) -> Result<Path, AllocError>
    ensures { IfOk result (λ path. path ≡ names.now) }
{
    let mut copies = Vec::with_capacity(alloc, names.len())?;
    for name in names {
        copies.push(name.copy()?)?;
    }
    List::from_vec(alloc, copies)
}

/// How many of the children stand before a name.
fn place_of(children: &[Child], name: &Label) -> usize
    requires { IsRising children.now }
    ensures { IsPlace children.now name.now result }
{
    let mut low = 0;
    let mut high = children.len();
    while low < high {
        let middle = low + (high - low) / 2;
        if precedes(&children[middle].name, name) {
            low = middle + 1;
        } else {
            high = middle;
        }
    }
    low
}

/// Whether a name stands before another by its bytes.
pub fn precedes(name: &Label, other: &Label) -> bool
    ensures { IsTrue result ↔ Precedes name.now other.now }
{
    come_before(name.as_slice(), other.as_slice())
}

/// Whether bytes come before others. They are compared one by one, since names are short.
fn come_before(a: &[u8], b: &[u8]) -> bool
    ensures { IsTrue result ↔ slice_cmp nat_cmp a.now b.now ≡ Less }
{
    for at in 0..a.len().min(b.len()) {
        if a[at] != b[at] {
            return a[at] < b[at];
        }
    }
    a.len() < b.len()
}
