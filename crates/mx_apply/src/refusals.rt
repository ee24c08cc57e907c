//! Why an edit is refused by what a model text holds: one test for each refusal, and the first that applies.
ghost use Rattle.std.specs.Prelude.{◌≡◌, false, not, option_copied, IfOk};
ghost use Rattle.std.specs.List.{list_any};
ghost use Rattle.mx_model.specs.Records.{Path as SpacePath};
ghost use Rattle.mx_model.specs.Paths.{is_defined};
ghost use Rattle.mx_model.specs.Change.{is_within};
ghost use Rattle.mx_model.specs.Sound.{IsSound};
ghost use Rattle.mx_model.specs.Inputs.{cells_params, path_of};
ghost use Rattle.mx_apply.specs.Needs.{CanTell};
ghost use Rattle.mx_model.specs.Refused.{bad_name, no_such_space, no_such_member, name_taken, wrong_count, do_not_bind, item_address, bad_value, first_user, uses, in_use, record_trouble};

use crate::bound::bound_node;
use crate::displays::shows_item;
use crate::own::{
    has_cells, has_child, has_params, has_reference, holds_reference, is_defined, is_holder,
};
use crate::statics::{cells_formula, is_target, lacks_cells, lacks_path};
use crate::values::{
    has_double, is_long_input, is_long_list, is_long_value, is_nothing, is_one_unfit, is_unfit,
};
use mx_changes::spaces::is_within;
use mx_edit::edit::Edit;
use mx_edit::reference::RefValue;
use mx_edit::refusal::EditRefusal;
use mx_list::items::Items;
use mx_model::address::path_of;
use mx_model::space::Space;
use mx_model::spaces::Spaces;
use mx_model::text::ModelText;
use mx_syntax::bind::{BindRefusal, bind};
use mx_value::copies::copy_items;
use mx_value::label::Label;
use mx_value::name::is_name;
use mx_value::node::Path;
use mx_value::value::{Addr, Value};
use std::alloc::{AllocError, Global};

/// Whether the name that an edit gives to what is new is none.
fn bad_name(edit: &Edit) -> bool
    ensures { result ≡ bad_name edit.now }
{
    match edit {
        Edit::NewSpace { parent: _, name } => !is_name(name),
        Edit::SetCells {
            path: _,
            name,
            formula: _,
        } => !is_name(name),
        Edit::SetRef {
            path: _,
            name,
            value: _,
        } => !is_name(name),
        Edit::SetTable { name, table: _ } => !is_name(name),
        _ => false,
    }
}

/// Whether one of these is the path of no defined space.
fn lacks_one(text: &ModelText, paths: &[Path]) -> bool
    ensures { result ≡ list_any (λ (path : SpacePath). not (is_defined text.now path)) paths.now }
{
    for path in paths {
        if !is_defined(text, path) {
            return true;
        }
    }
    false
}

/// Whether a path of the edit is that of no defined space, or for an input no static one.
fn no_such_space(alloc: Global, text: &ModelText, edit: &Edit) -> Result<bool, AllocError>
    requires { CanTell text.now edit.now }
    ensures { IfOk result (λ told. told ≡ no_such_space text.now edit.now) }
{
    match edit {
        Edit::NewSpace { parent, name: _ } => return Ok(!is_holder(text, parent)),
        Edit::DelSpace { path } => return Ok(!is_defined(text, path)),
        Edit::SetBases { path, bases } => {
            return Ok(!is_defined(text, path) || lacks_one(text, bases.as_slice()));
        }
        Edit::SetCells {
            path,
            name: _,
            formula: _,
        } => return Ok(!is_defined(text, path)),
        Edit::DelCells { path, name: _ } => return Ok(!is_defined(text, path)),
        Edit::SetAllowNone {
            path,
            name: _,
            flag: _,
        } => return Ok(!is_defined(text, path)),
        Edit::SetRef {
            path,
            name: _,
            value: _,
        } => return Ok(!is_holder(text, path)),
        Edit::DelRef { path, name: _ } => return Ok(!is_holder(text, path)),
        Edit::SetParams { path, params: _ } => return Ok(!is_defined(text, path)),
        Edit::SetInput {
            space,
            name: _,
            args: _,
            value: _,
        } => return lacks_path(alloc, text, space),
        Edit::DelInput {
            space,
            name: _,
            args: _,
        } => return lacks_path(alloc, text, space),
        Edit::SetTable { name: _, table: _ } => return Ok(false),
    }
}

/// Whether what the edit is to change, or names as a target, is not there.
fn no_such_member(alloc: Global, text: &ModelText, edit: &Edit) -> Result<bool, AllocError>
    requires { CanTell text.now edit.now }
    ensures { IfOk result (λ told. told ≡ no_such_member text.now edit.now) }
{
    match edit {
        Edit::DelCells { path, name } => return Ok(!has_cells(text, path, name)),
        Edit::SetAllowNone {
            path,
            name,
            flag: _,
        } => {
            return Ok(!has_cells(text, path, name));
        }
        Edit::SetRef {
            path: _,
            name: _,
            value,
        } => {
            let is_there = is_target(alloc, text, value)?;
            return Ok(!is_there);
        }
        Edit::DelRef { path, name } => return Ok(!holds_reference(text, path, name)),
        Edit::SetParams { path, params: None } => return Ok(!has_params(text, path)),
        Edit::SetInput {
            space,
            name,
            args: _,
            value: _,
        } => return lacks_cells(alloc, text, space, name),
        Edit::DelInput {
            space,
            name,
            args: _,
        } => return lacks_cells(alloc, text, space, name),
        _ => return Ok(false),
    }
}

/// Whether another member of the space, or of the model, has the name that the edit gives.
fn name_taken(alloc: Global, text: &ModelText, edit: &Edit) -> Result<bool, AllocError>
    ensures { IfOk result (λ told. told ≡ name_taken text.now edit.now) }
{
    match edit {
        Edit::NewSpace { parent, name } => {
            let is_child = has_child(alloc, text, parent, name)?;
            return Ok(
                is_child || has_cells(text, parent, name) || holds_reference(text, parent, name),
            );
        }
        Edit::SetCells {
            path,
            name,
            formula: _,
        } => {
            let is_child = has_child(alloc, text, path, name)?;
            return Ok(is_child || has_reference(text, path, name));
        }
        Edit::SetRef {
            path,
            name,
            value: _,
        } => {
            let is_child = has_child(alloc, text, path, name)?;
            return Ok(is_child || has_cells(text, path, name));
        }
        _ => return Ok(false),
    }
}

/// Whether arguments do not bind to the parameters of the cells at an address without an item.
fn do_not_bind(
    alloc: Global,
    text: &ModelText,
    at: &Addr,
    name: &Label,
    args: &Items<Value>,
) -> Result<bool, AllocError>
    requires { IsSound text.now }
    ensures { let params = cells_params text.now (path_of at.now) name.now in
        IfOk result (λ told. told ≡ do_not_bind params args.now) }
{
    let Some(formula) = cells_formula(alloc, text, at, name)? else {
        return Ok(false);
    };
    let args = copy_items(alloc, args)?;
    match bind(alloc, formula.params.as_slice(), args) {
        Ok(_) => return Ok(false),
        Err(BindRefusal::WrongCount) => return Ok(true),
        Err(BindRefusal::NoMemory) => return Err(AllocError),
    }
}

/// Whether the arguments of an input do not bind.
fn wrong_count(alloc: Global, text: &ModelText, edit: &Edit) -> Result<bool, AllocError>
    requires { CanTell text.now edit.now }
    ensures { IfOk result (λ told. told ≡ wrong_count text.now edit.now) }
{
    match edit {
        Edit::SetInput {
            space,
            name,
            args,
            value: _,
        } => return do_not_bind(alloc, text, space, name, args),
        Edit::DelInput { space, name, args } => return do_not_bind(alloc, text, space, name, args),
        _ => return Ok(false),
    }
}

/// Whether the address of an input has an item.
fn item_address(alloc: Global, edit: &Edit) -> Result<bool, AllocError>
    ensures { IfOk result (λ told. told ≡ item_address edit.now) }
{
    match edit {
        Edit::SetInput {
            space,
            name: _,
            args: _,
            value: _,
        } => {
            let path = path_of(alloc, space)?;
            return Ok(path.is_none());
        }
        Edit::DelInput {
            space,
            name: _,
            args: _,
        } => {
            let path = path_of(alloc, space)?;
            return Ok(path.is_none());
        }
        _ => return Ok(false),
    }
}

/// Whether a base is named twice, or the edit holds what may not stand in a model text.
fn bad_value(alloc: Global, text: &ModelText, edit: &Edit) -> Result<bool, AllocError>
    requires can { CanTell text.now edit.now }
    requires binds { wrong_count text.now edit.now ≡ false }
    ensures { IfOk result (λ told. told ≡ bad_value text.now edit.now) }
{
    match edit {
        Edit::SetBases { path: _, bases } => {
            let is_long = is_long_list(bases.as_slice());
            return Ok(has_double(bases.as_slice()) || is_long);
        }
        Edit::SetCells {
            path: _,
            name: _,
            formula,
        } => return Ok(shows_item(formula)),
        Edit::SetRef {
            path: _,
            name: _,
            value: RefValue::Plain(value),
        } => {
            let is_long = is_long_value(value.get());
            return Ok(is_unfit(value.get()) || is_long);
        }
        Edit::SetParams {
            path: _,
            params: Some(params),
        } => return Ok(params.params.is_empty()),
        Edit::SetInput {
            space,
            name,
            args,
            value,
        } => {
            let node = bound_node(alloc, text, space, name, args)?;
            let is_long = is_long_input(&node, value);
            return Ok(
                is_nothing(value) || is_one_unfit(args.as_slice()) || is_unfit(value) || is_long,
            );
        }
        Edit::DelInput { space, name, args } => {
            let node = bound_node(alloc, text, space, name, args)?;
            return Ok(is_one_unfit(args.as_slice()) || text.input(&node).is_none());
        }
        _ => return Ok(false),
    }
}

/// Whether one of these paths is the removed one or leads on from it.
fn has_removed(removed: &Path, bases: &[Path]) -> bool
    ensures { result ≡ list_any (is_within removed.now) bases.now }
{
    for base in bases {
        if is_within(removed, base) {
            return true;
        }
    }
    false
}

/// Whether a space stays that has a removed one as base.
fn uses(removed: &Path, space: &Space) -> bool
    ensures { result ≡ uses removed.now space.now }
{
    if is_within(removed, space.path()) {
        return false;
    }
    return has_removed(removed, space.bases.as_slice());
}

/// The path of the first space that stays and has a removed one as base.
fn first_user<'a>(removed: &Path, spaces: &'a Spaces) -> Option<&'a Path>
    ensures { option_copied result ≡ first_user removed.now spaces.now }
{
    for place in 0..spaces.len() {
        let Some(space) = spaces.get(place) else {
            unreachable!()
        };
        if uses(removed, space.get()) {
            return Some(space.get().path());
        }
    }
    None
}

/// The refusal of a removal that leaves a base without its space.
fn in_use(text: &ModelText, edit: &Edit) -> Result<Option<EditRefusal>, AllocError>
    ensures { IfOk result (λ why. why ≡ in_use text.now edit.now) }
{
    let Edit::DelSpace { path } = edit else {
        return Ok(None);
    };
    match first_user(path, text.spaces()) {
        Some(user) => return Ok(Some(EditRefusal::InUse(user.copy()?))),
        None => return Ok(None),
    }
}

/// The first refusal that applies to an edit, before a ring, a number or the walk over static paths.
pub fn record_trouble(
    alloc: Global,
    text: &ModelText,
    edit: &Edit,
) -> Result<Option<EditRefusal>, AllocError>
    requires { CanTell text.now edit.now }
    ensures { IfOk result (λ why. why ≡ record_trouble text.now edit.now) }
{
    if bad_name(edit) {
        return Ok(Some(EditRefusal::BadName));
    }
    if no_such_space(alloc, text, edit)? {
        return Ok(Some(EditRefusal::NoSuchSpace));
    }
    if no_such_member(alloc, text, edit)? {
        return Ok(Some(EditRefusal::NoSuchMember));
    }
    if name_taken(alloc, text, edit)? {
        return Ok(Some(EditRefusal::NameTaken));
    }
    if wrong_count(alloc, text, edit)? {
        return Ok(Some(EditRefusal::WrongCount));
    }
    if item_address(alloc, edit)? {
        return Ok(Some(EditRefusal::ItemAddress));
    }
    if bad_value(alloc, text, edit)? {
        return Ok(Some(EditRefusal::BadValue));
    }
    return in_use(text, edit);
}
