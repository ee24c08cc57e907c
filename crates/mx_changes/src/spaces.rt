//! The changes that edits of spaces make.
ghost use Rattle.std.specs.Prelude.{◌≡◌, ◌∷◌, [], ◌++◌, false, IfOk, OnOk, IsTrue, MatchOption};
ghost use Rattle.mx_edit.specs.declared.edit.Edit.TheVariants as edit;
ghost use Rattle.mx_model.specs.Records.{Name, empty_space};
ghost use Rattle.mx_model.specs.Paths.{is_defined};
ghost use Rattle.mx_model.specs.Refused.{is_holder, name_taken};
ghost use Rattle.mx_model.specs.Change.{change, is_within};
ghost use Rattle.mx_model.specs.Indexed.{ArePlaced, TellAll};
ghost use Rattle.mx_changes.specs.Kept.{IsLeft, LosesChild};

use crate::kinds::{define_kind, remove_kind};
use crate::parts;
use mx_list::list::List;
use mx_list::shared::Shared;
use mx_members::chunks::Chunks;
use mx_members::members::Members;
use mx_model::kind::Kind;
use mx_model::layers::path_below;
use mx_model::space::Space;
use mx_model::spaces::Spaces;
use mx_model::text::ModelText;
use mx_value::label::Label;
use mx_value::node::Path;
use std::alloc::{AllocError, Global};

/// The text with these bases of a space.
pub fn with_bases(
    alloc: Global,
    text: &ModelText,
    path: &Path,
    bases: &List<Path>,
) -> Result<ModelText, AllocError>
    requires { IsTrue (is_defined text.now path.now) }
    ensures { IfOk result (λ t. t ≡ change text.now (edit.SetBases path.now bases.now)) }
{
    let Some(s) = text.id_of(path) else {
        unreachable!()
    };
    let space = parts::with_bases(text.space(s), bases)?;
    let spaces = text.spaces().with(alloc, s.0 as usize, space)?;
    let kinds = text.kinds().copy(alloc)?;
    text.with_spaces(alloc, spaces, kinds)
}

/// These kinds of the spaces with a child of this name in that of its parent.
fn kinds_with_child(
    alloc: Global,
    text: &ModelText,
    kinds: &Chunks<Shared<Members<Label, Kind>>>,
    parent: &Path,
    name: &Label,
) -> Result<Chunks<Shared<Members<Label, Kind>>>, AllocError>
    requires placed { ArePlaced kinds.now text.now }
    requires held { IsTrue (is_holder text.now parent.now) }
    requires free { name_taken text.now (edit.NewSpace parent.now name.now) ≡ false }
    ensures { let changed = change text.now (edit.NewSpace parent.now name.now) in
        IfOk result (λ kinds. TellAll changed text.now.spaces kinds) }
{
    match text.id_of(parent) {
        Some(s) => {
            let Some(own) = kinds.get(s.0 as usize) else {
                unreachable!()
            };
            let table = define_kind(alloc, own, name, Kind::Child)?;
            let mut tables = kinds.copy(alloc)?;
            tables.set(alloc, s.0 as usize, table)?;
            return Ok(tables);
        }
        None => return kinds.copy(alloc),
    }
}

/// The text with a new space behind the others.
pub fn with_new_space(
    alloc: Global,
    text: &ModelText,
    parent: &Path,
    name: &Label,
) -> Result<ModelText, AllocError>
    requires held { IsTrue (is_holder text.now parent.now) }
    requires free { name_taken text.now (edit.NewSpace parent.now name.now) ≡ false }
    ensures { IfOk result (λ t. t ≡ change text.now (edit.NewSpace parent.now name.now)) }
{
    if text.spaces().len() >= u32::MAX as usize {
        return Err(AllocError);
    }
    let space = new_space(alloc, parent, name)?;
    let spaces = text.spaces().with_more(alloc, space)?;
    let before = kinds_with_child(alloc, text, text.kinds(), parent, name)?;
    let kinds = with_table(alloc, before)?;
    text.with_spaces(alloc, spaces, kinds)
}

/// A space without members and bases, below a path.
fn new_space(alloc: Global, parent: &Path, name: &Label) -> Result<Space, AllocError>
    ensures { IfOk result (λ space. space ≡ empty_space (parent.now ++ name.now ∷ [])) }
{
    let path = path_below(alloc, parent.as_slice(), name)?;
    let bases = List::empty(alloc)?;
    Space::new(alloc, path, bases)
}

/// These tables of kinds, and that of a space without members behind them.
fn with_table(
    alloc: Global,
    tables: Chunks<Shared<Members<Label, Kind>>>,
) -> Result<Chunks<Shared<Members<Label, Kind>>>, AllocError>
    ensures { IfOk result (λ all. all ≡ tables ++ [] ∷ []) }
{
    let mut tables = tables;
    let table = no_kinds(alloc)?;
    tables.push(alloc, table)?;
    Ok(tables)
}

/// The kinds of a space without members.
fn no_kinds(alloc: Global) -> Result<Shared<Members<Label, Kind>>, AllocError>
    ensures { IfOk result (λ kinds. kinds ≡ []) }
{
    let kinds = Members::new(alloc)?;
    Shared::new(alloc, kinds)
}

/// The text without a space and all defined spaces below it.
pub fn without_space(alloc: Global, text: &ModelText, path: &Path) -> Result<ModelText, AllocError>
    ensures { IfOk result (λ t. t ≡ change text.now (edit.DelSpace path.now)) }
{
    let all = text.spaces();
    let tables = text.kinds();
    let mut spaces = Spaces::new(alloc);
    let mut kinds = Chunks::new(alloc);
    for place in 0..all.len() {
        let Some(space) = all.get(place) else {
            unreachable!()
        };
        let Some(table) = tables.get(place) else {
            unreachable!()
        };
        let at = space.get().path();
        if !is_within(path, at) {
            let left = kinds_left(alloc, table, at, path)?;
            push_left(alloc, &mut spaces, &mut kinds, space, left)?;
        }
    }
    text.with_spaces(alloc, spaces, kinds)
}

/// Adds a space, which is shared, and its kinds behind the others.
fn push_left(
    alloc: Global,
    spaces: &mut Spaces,
    tables: &mut Chunks<Shared<Members<Label, Kind>>>,
    space: &Shared<Space>,
    kinds: Shared<Members<Label, Kind>>,
) -> Result<(), AllocError>
    ensures spaces { OnOk result (spaces.new ≡ spaces.old ++ space.now ∷ []) }
    ensures tables { OnOk result (tables.new ≡ tables.old ++ kinds ∷ []) }
{
    let space = space.copy()?;
    spaces.push(alloc, space)?;
    tables.push(alloc, kinds)
}

/// Whether a path is another one or leads on from it.
pub fn is_within(path: &Path, other: &Path) -> bool
    ensures { result ≡ is_within path.now other.now }
{
    other.as_slice().starts_with(path.as_slice())
}

/// The last name of a path just below another one.
fn child_name<'a>(path: &'a Path, parent: &Path) -> Option<&'a Label>
    ensures { MatchOption result ((name : Name) → path.now ≡ parent.now ++ name ∷ [] → ⊥)
        (λ name. path.now ≡ parent.now ++ name.now ∷ []) }
{
    match path.as_slice() {
        [names @ .., last] => {
            if names == parent.as_slice() {
                return Some(last);
            }
            return None;
        }
        [] => return None,
    }
}

/// The kinds of a space without the child of a path.
fn kinds_left(
    alloc: Global,
    kinds: &Shared<Members<Label, Kind>>,
    at: &Path,
    removed: &Path,
) -> Result<Shared<Members<Label, Kind>>, AllocError>
    ensures { IfOk result (λ rest. IsLeft removed.now at.now kinds.now rest) }
{
    match child_name(removed, at) {
        Some(name) => return kinds_without_child(alloc, kinds, name),
        None => return kinds.copy(),
    }
}

/// Kinds without a child of a name, where they have one.
fn kinds_without_child(
    alloc: Global,
    kinds: &Shared<Members<Label, Kind>>,
    name: &Label,
) -> Result<Shared<Members<Label, Kind>>, AllocError>
    ensures { IfOk result (λ rest. LosesChild name.now kinds.now rest) }
{
    match kinds.get().get(name) {
        Some(Kind::Child) => return remove_kind(alloc, kinds, name),
        Some(Kind::Cells) => return kinds.copy(),
        Some(Kind::Reference) => return kinds.copy(),
        None => return kinds.copy(),
    }
}
