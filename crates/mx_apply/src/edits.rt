//! Edits of a model text.
ghost use Rattle.std.specs.Prelude.{◌≡◌, None, true, IfOk};
ghost use Rattle.mx_model.specs.Change.{change, bound_edit, set_reference, remove_reference};
ghost use Rattle.mx_model.specs.Refused.{is_holder, record_trouble};
ghost use Rattle.mx_apply.specs.Made.{IsMade};
ghost use Rattle.mx_apply.specs.Needs.{CanTell};
ghost use Rattle.mx_apply.specs.Chain.{IsRingless, MakesNoRing, CanGoOn, GoesOn};

use crate::bound::bound_node;
use crate::refusals::record_trouble;
use mx_changes::globals::{with_global, with_table, without_global};
use mx_changes::inputs::{with_input, without_input};
use mx_changes::members::{
    with_cells, with_own_reference, with_params, with_setting, without_cells, without_own_reference,
};
use mx_changes::spaces::{with_bases, with_new_space, without_space};
use mx_edit::edit::Edit;
use mx_edit::reference::RefValue;
use mx_edit::refusal::EditRefusal;
use mx_model::text::ModelText;
use mx_value::label::Label;
use mx_value::node::Path;
use std::alloc::{AllocError, Global};

/// The text that an edit makes of another one, or the first refusal that applies by what the text holds. Rings, numbers and
/// the walk over static paths are not looked at, and inputs that no longer fit stay.
pub fn with_edit(alloc: Global, text: &ModelText, edit: &Edit) -> Result<ModelText, EditRefusal>
    requires { CanTell text.now edit.now }
    ensures made { IsMade text.now edit.now result }
    ensures next { GoesOn text.now edit.now result }
{
    match record_trouble(alloc, text, edit) {
        Ok(Some(why)) => return Err(why),
        Ok(None) => {}
        Err(_) => return Err(EditRefusal::NoMemory),
    }
    match changed(alloc, text, edit) {
        Ok(made) => {
            keep_on(text, edit, &made);
            return Ok(made);
        }
        Err(_) => return Err(EditRefusal::NoMemory),
    }
}

/// From what stands beside both texts, other edits can follow. Does nothing when it runs.
fn keep_on(text: &ModelText, edit: &Edit, made: &ModelText)
    requires free { record_trouble text.now edit.now ≡ None }
    requires is { made.now ≡ change text.now (bound_edit text.now edit.now) }
    ensures { IsRingless text.now → MakesNoRing edit.now made.now → CanGoOn made.now }
{
    let _ = text.kinds();
    let _ = made.kinds();
}

/// The change of an edit to which no refusal applies.
fn changed(alloc: Global, text: &ModelText, edit: &Edit) -> Result<ModelText, AllocError>
    requires can { CanTell text.now edit.now }
    requires free { record_trouble text.now edit.now ≡ None }
    ensures { IfOk result (λ t. t ≡ change text.now (bound_edit text.now edit.now)) }
{
    match edit {
        Edit::NewSpace { parent, name } => return with_new_space(alloc, text, parent, name),
        Edit::DelSpace { path } => return without_space(alloc, text, path),
        Edit::SetBases { path, bases } => return with_bases(alloc, text, path, bases),
        Edit::SetCells {
            path,
            name,
            formula,
        } => return with_cells(alloc, text, path, name, formula),
        Edit::DelCells { path, name } => return without_cells(alloc, text, path, name),
        Edit::SetAllowNone { path, name, flag } => return with_setting(
            alloc, text, path, name, *flag,
        ),
        Edit::SetRef { path, name, value } => return with_reference(alloc, text, path, name, value),
        Edit::DelRef { path, name } => return without_reference(alloc, text, path, name),
        Edit::SetParams { path, params } => return with_params(alloc, text, path, params),
        Edit::SetInput {
            space,
            name,
            args,
            value,
        } => {
            let node = bound_node(alloc, text, space, name, args)?;
            return with_input(alloc, text, node, value);
        }
        Edit::DelInput { space, name, args } => {
            let node = bound_node(alloc, text, space, name, args)?;
            return without_input(alloc, text, &node);
        }
        Edit::SetTable { name, table } => return with_table(alloc, text, name, table),
    }
}

/// The text with a reference of a space, or for the empty path of the model.
fn with_reference(
    alloc: Global,
    text: &ModelText,
    path: &Path,
    name: &Label,
    value: &RefValue,
) -> Result<ModelText, AllocError>
    requires { is_holder text.now path.now ≡ true }
    ensures { IfOk result (λ t. t ≡ set_reference text.now path.now name.now value.now) }
{
    if path.is_empty() {
        return with_global(alloc, text, name, value);
    }
    return with_own_reference(alloc, text, path, name, value);
}

/// The text without a reference of a space, or for the empty path of the model.
fn without_reference(
    alloc: Global,
    text: &ModelText,
    path: &Path,
    name: &Label,
) -> Result<ModelText, AllocError>
    requires { is_holder text.now path.now ≡ true }
    ensures { IfOk result (λ t. t ≡ remove_reference text.now path.now name.now) }
{
    if path.is_empty() {
        return without_global(alloc, text, name);
    }
    return without_own_reference(alloc, text, path, name);
}
