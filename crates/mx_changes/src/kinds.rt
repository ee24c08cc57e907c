//! The tables of kinds of changed spaces.
ghost use Rattle.std.specs.Prelude.{◌≡◌, ◌<◌, ◌⊎◌, length, None, Some, option_map, IfOk};
ghost use Rattle.std.specs.Map.{lookup};
ghost use Rattle.mx_value.specs.Name.{same_name};
ghost use Rattle.mx_model.specs.Records.{SpaceRecord};
ghost use Rattle.mx_model.specs.Layers.{space_of};
ghost use Rattle.mx_model.specs.Lookup.{kind_of};
ghost use Rattle.mx_model.specs.Binding.{own_member};
ghost use Rattle.mx_model.specs.Change.{define, without};
ghost use Rattle.mx_model.specs.Indexed.{Tells};
ghost use Rattle.mx_changes.specs.Kept.{KeepsOthers};

use crate::defined::with_made;
use mx_c3::space::SpaceId;
use mx_list::shared::Shared;
use mx_members::members::Members;
use mx_model::kind::Kind;
use mx_model::layers::path_below;
use mx_model::space::Space;
use mx_model::text::ModelText;
use mx_value::label::Label;
use std::alloc::{AllocError, Global};

/// What a space in this text has itself under a name.
fn own_kind(
    alloc: Global,
    text: &ModelText,
    space: &Space,
    name: &Label,
) -> Result<Option<Kind>, AllocError>
    ensures { let own = own_member text.now name.now space.now in
        IfOk result (λ kind. kind ≡ option_map kind_of own) }
{
    match space.cells(name) {
        Some(_) => return Ok(Some(Kind::Cells)),
        None => {}
    }
    match space.reference(name) {
        Some(_) => return Ok(Some(Kind::Reference)),
        None => {}
    }
    let path = path_below(alloc, space.path().as_slice(), name)?;
    match text.id_of(&path) {
        Some(_) => return Ok(Some(Kind::Child)),
        None => return Ok(None),
    }
}

/// The kinds of a space that differs from the one at a place under one name alone.
pub fn kinds_of(
    alloc: Global,
    text: &ModelText,
    s: SpaceId,
    space: &Space,
    name: &Label,
) -> Result<Shared<Members<Label, Kind>>, AllocError>
    requires within { s.0 < length text.now.spaces }
    requires others { (old : SpaceRecord) →
        space_of text.now s ≡ Some old → KeepsOthers name.now old space.now }
    ensures { IfOk result (λ kinds. Tells text.now space.now kinds) }
{
    let Some(kinds) = text.kinds().get(s.0 as usize) else {
        unreachable!()
    };
    match own_kind(alloc, text, space, name)? {
        Some(kind) => return define_kind(alloc, kinds, name, kind),
        None => return remove_kind(alloc, kinds, name),
    }
}

/// Kinds in which a name has this kind.
pub fn define_kind(
    alloc: Global,
    kinds: &Shared<Members<Label, Kind>>,
    name: &Label,
    kind: Kind,
) -> Result<Shared<Members<Label, Kind>>, AllocError>
    ensures { IfOk result (λ defined.
        (lookup (same_name name.now) kinds.now ≡ Some kind × (defined ≡ kinds.now)) ⊎
        (defined ≡ define same_name kinds.now name.now kind)) }
{
    if kinds.get().get(name) == Some(&kind) {
        return kinds.copy();
    }
    let defined = with_made(alloc, kinds.get(), name, kind)?;
    return Shared::new(alloc, defined);
}

/// Kinds without a name.
pub fn remove_kind(
    alloc: Global,
    kinds: &Shared<Members<Label, Kind>>,
    name: &Label,
) -> Result<Shared<Members<Label, Kind>>, AllocError>
    ensures { IfOk result (λ rest.
        (rest ≡ without same_name kinds.now name.now) × (lookup (same_name name.now) rest ≡ None)) }
{
    let rest = kinds.get().without(alloc, name)?;
    Shared::new(alloc, rest)
}
