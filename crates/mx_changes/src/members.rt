//! The changes that edits of one space's members make.
ghost use Rattle.std.specs.Prelude.{◌≡◌, ◌<◌, length, Some, IfOk, IsTrue, is_some, option_and_then};
ghost use Rattle.std.specs.Map.{lookup};
ghost use Rattle.mx_value.specs.Name.{same_name};
ghost use Rattle.mx_edit.specs.declared.edit.Edit.TheVariants as edit;
ghost use Rattle.mx_model.specs.Records.{Path as SpacePath, SpaceRecord};
ghost use Rattle.mx_model.specs.Layers.{id_of, space_of};
ghost use Rattle.mx_model.specs.Paths.{is_defined, space_at};
ghost use Rattle.mx_model.specs.Change.{change, at_space, define, without};
ghost use Rattle.mx_changes.specs.Kept.{KeepsOthers};

use crate::kinds::kinds_of;
use crate::parts;
use mx_c3::space::SpaceId;
use mx_edit::reference::RefValue;
use mx_model::space::Space;
use mx_model::text::ModelText;
use mx_syntax::stmt::{Formula, Params};
use mx_value::label::Label;
use mx_value::node::Path;
use std::alloc::{AllocError, Global};

/// The text with another space, that differs under one name, in the place of one.
fn with_space(
    alloc: Global,
    text: &ModelText,
    s: SpaceId,
    space: Space,
    name: &Label,
) -> Result<ModelText, AllocError>
    requires within { s.0 < length text.now.spaces }
    requires others { (old : SpaceRecord) →
        space_of text.now s ≡ Some old → KeepsOthers name.now old space }
    ensures { (path : SpacePath) (change : SpaceRecord → SpaceRecord) →
        id_of text.now path ≡ Some s →
        ((old : SpaceRecord) → space_of text.now s ≡ Some old → space ≡ change old) →
        IfOk result (λ t. t ≡ at_space text.now path change) }
{
    let kinds = kinds_of(alloc, text, s, &space, name)?;
    text.put(alloc, s, space, kinds)
}

/// The text with cells of a space.
pub fn with_cells(
    alloc: Global,
    text: &ModelText,
    path: &Path,
    name: &Label,
    formula: &Formula,
) -> Result<ModelText, AllocError>
    requires { IsTrue (is_defined text.now path.now) }
    ensures { let e = edit.SetCells path.now name.now formula.now in
        IfOk result (λ t. t ≡ change text.now e) }
{
    let Some(s) = text.id_of(path) else {
        unreachable!()
    };
    let space = parts::with_cells(alloc, text.space(s), name, formula)?;
    with_space(alloc, text, s, space, name)
}

/// The text without cells of a space.
pub fn without_cells(
    alloc: Global,
    text: &ModelText,
    path: &Path,
    name: &Label,
) -> Result<ModelText, AllocError>
    requires { IsTrue (is_defined text.now path.now) }
    ensures { IfOk result (λ t. t ≡ change text.now (edit.DelCells path.now name.now)) }
{
    let Some(s) = text.id_of(path) else {
        unreachable!()
    };
    let space = parts::without_cells(alloc, text.space(s), name)?;
    with_space(alloc, text, s, space, name)
}

/// The text with a setting of a space's cells.
pub fn with_setting(
    alloc: Global,
    text: &ModelText,
    path: &Path,
    name: &Label,
    allow_none: bool,
) -> Result<ModelText, AllocError>
    requires { let cells = λ (s : SpaceRecord). lookup (same_name name.now) s.cells in
        IsTrue (is_some (option_and_then cells (space_at text.now path.now))) }
    ensures { let e = edit.SetAllowNone path.now name.now allow_none in
        IfOk result (λ t. t ≡ change text.now e) }
{
    let Some(s) = text.id_of(path) else {
        unreachable!()
    };
    let space = parts::with_setting(alloc, text.space(s), name, allow_none)?;
    with_space(alloc, text, s, space, name)
}

/// The text with a reference of a space.
pub fn with_own_reference(
    alloc: Global,
    text: &ModelText,
    path: &Path,
    name: &Label,
    value: &RefValue,
) -> Result<ModelText, AllocError>
    requires { IsTrue (is_defined text.now path.now) }
    ensures { let change = λ (s : SpaceRecord).
        record s { references = define same_name s.references name.now value.now } in
        IfOk result (λ t. t ≡ at_space text.now path.now change) }
{
    let Some(s) = text.id_of(path) else {
        unreachable!()
    };
    let space = parts::with_reference(alloc, text.space(s), name, value)?;
    with_space(alloc, text, s, space, name)
}

/// The text without a reference of a space.
pub fn without_own_reference(
    alloc: Global,
    text: &ModelText,
    path: &Path,
    name: &Label,
) -> Result<ModelText, AllocError>
    requires { IsTrue (is_defined text.now path.now) }
    ensures { let change = λ (s : SpaceRecord).
        record s { references = without same_name s.references name.now } in
        IfOk result (λ t. t ≡ at_space text.now path.now change) }
{
    let Some(s) = text.id_of(path) else {
        unreachable!()
    };
    let space = parts::without_reference(alloc, text.space(s), name)?;
    with_space(alloc, text, s, space, name)
}

/// The text with these parameters of a space, or none.
pub fn with_params(
    alloc: Global,
    text: &ModelText,
    path: &Path,
    params: &Option<Params>,
) -> Result<ModelText, AllocError>
    requires { IsTrue (is_defined text.now path.now) }
    ensures { IfOk result (λ t. t ≡ change text.now (edit.SetParams path.now params.now)) }
{
    let Some(s) = text.id_of(path) else {
        unreachable!()
    };
    let space = parts::with_params(alloc, text.space(s), params)?;
    let kinds = text.kinds_at(s)?;
    text.put(alloc, s, space, kinds)
}
