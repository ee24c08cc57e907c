//! What keys lead to in a text.
ghost use Rattle.std.specs.Prelude.{◌≡◌, ◌<◌, length, Some, IfOk, if◌then◌else◌};
ghost use Rattle.std.specs.Map.{lookup as held};
ghost use Rattle.mx_value.specs.Name.{same_name};
ghost use Rattle.mx_edit.specs.declared.key.KeyResult.TheVariants as found;
ghost use Rattle.mx_model.specs.declared.kind.Kind.TheVariants as kind;
ghost use Rattle.mx_model.specs.Layers.{is_static};
ghost use Rattle.mx_c3.specs.InOrder.{AllBelow};
ghost use Rattle.mx_model.specs.Records.{SpaceRecord};
ghost use Rattle.mx_model.specs.Binding.{binding, parameters, own_member, first_with};
ghost use Rattle.mx_model.specs.Lookup.{kind_in, member_in};
ghost use Rattle.mx_model.specs.Keys.{bound_to, formula_of, params_of, global_of, input_of, value_of, table_of, key_result};
ghost use Rattle.mx_model.specs.Valid.{Valid};

use crate::lookup::{Binding, first_params, lookup};
use crate::text::ModelText;
use mx_c3::lists::Order;
use mx_c3::space::SpaceId;
use mx_edit::copies::{copy_formula, copy_params};
use mx_edit::key::{Key, KeyResult};
use mx_list::list::List;
use mx_value::label::Label;
use mx_value::node::{Node, Path};
use std::alloc::{AllocError, Global};

/// What a key leads to in a valid text.
pub fn key_result(alloc: Global, text: &ModelText, key: &Key) -> Result<KeyResult, AllocError>
    requires { Valid text.now }
    ensures { IfOk result (λ found. found ≡ key_result text.now key.now) }
{
    match key {
        Key::Name(path, name) => name_at(alloc, text, path, name),
        Key::Cells(path, name) => formula_at(alloc, text, path, name),
        Key::Params(path) => params_at(alloc, text, path),
        Key::Exists(path) => presence_of(alloc, text, path),
        Key::Global(name) => global_of(alloc, text, name),
        Key::Input(node) => value_of(text, node.get()),
        Key::Table(name) => table_of(text, name),
    }
}

/// The reference of the model of a name.
fn global_of(alloc: Global, text: &ModelText, name: &Label) -> Result<KeyResult, AllocError>
    ensures { IfOk result
        (λ found. found ≡ global_of (held (same_name name.now) text.now.globals)) }
{
    match text.global(name) {
        Some(value) => Ok(KeyResult::Ref {
            value: value.copy()?,
            owner: List::empty(alloc)?,
        }),
        None => Ok(KeyResult::Missing),
    }
}

/// The value that was put in for a node.
fn value_of(text: &ModelText, node: &Node) -> Result<KeyResult, AllocError>
    ensures { IfOk result (λ found. found ≡ value_of (input_of text.now node.now)) }
{
    match text.shared_input(node) {
        Some(value) => Ok(KeyResult::Value(value.copy()?)),
        None => Ok(KeyResult::Missing),
    }
}

/// The table of a name.
fn table_of(text: &ModelText, name: &Label) -> Result<KeyResult, AllocError>
    ensures { IfOk result (λ found. found ≡ table_of (held (same_name name.now) text.now.tables)) }
{
    match text.table(name) {
        Some(table) => Ok(KeyResult::Table(table.copy()?)),
        None => Ok(KeyResult::Missing),
    }
}

/// What a path binds a name to.
fn name_at(
    alloc: Global,
    text: &ModelText,
    path: &Path,
    name: &Label,
) -> Result<KeyResult, AllocError>
    requires { Valid text.now }
    ensures { IfOk result (λ found. found ≡ bound_to (binding text.now path.now name.now)) }
{
    match text.layers(alloc, path)? {
        Some(layers) => return name_in(text, &layers, name),
        None => return Ok(KeyResult::Missing),
    }
}

/// What layers bind a name to.
fn name_in(text: &ModelText, layers: &Order, name: &Label) -> Result<KeyResult, AllocError>
    requires { AllBelow (length text.now.spaces) layers.now }
    ensures { let member = first_with text.now (own_member text.now name.now) layers.now in
        IfOk result (λ found. found ≡ bound_to member) }
{
    match lookup(text, layers, name) {
        Binding::CellsHere { owner: _ } => return Ok(KeyResult::CellsHere),
        Binding::Child => return Ok(KeyResult::Child),
        Binding::Ref { owner } => return reference_of(text, owner, name),
        Binding::Missing => return Ok(KeyResult::Missing),
    }
}

/// The reference of a space.
fn reference_of(text: &ModelText, owner: SpaceId, name: &Label) -> Result<KeyResult, AllocError>
    requires within { owner.0 < length text.now.spaces }
    requires of_kind { kind_in text.now owner name.now ≡ Some kind.Reference }
    ensures { IfOk result (λ found. found ≡ bound_to (member_in text.now owner name.now)) }
{
    let Some(value) = text.reference(owner, name) else {
        unreachable!()
    };
    let value = value.copy()?;
    let owner = text.path_of(owner).copy()?;
    Ok(KeyResult::Ref { value, owner })
}

/// The cells that a path binds to a name.
fn formula_at(
    alloc: Global,
    text: &ModelText,
    path: &Path,
    name: &Label,
) -> Result<KeyResult, AllocError>
    requires { Valid text.now }
    ensures { IfOk result (λ found. found ≡ formula_of (binding text.now path.now name.now)) }
{
    match text.layers(alloc, path)? {
        Some(layers) => return formula_in(text, &layers, name),
        None => return Ok(KeyResult::Missing),
    }
}

/// The cells that layers bind to a name.
fn formula_in(text: &ModelText, layers: &Order, name: &Label) -> Result<KeyResult, AllocError>
    requires { AllBelow (length text.now.spaces) layers.now }
    ensures { let member = first_with text.now (own_member text.now name.now) layers.now in
        IfOk result (λ found. found ≡ formula_of member) }
{
    match lookup(text, layers, name) {
        Binding::CellsHere { owner } => return cells_of(text, owner, name),
        Binding::Child => return Ok(KeyResult::Missing),
        Binding::Ref { owner: _ } => return Ok(KeyResult::Missing),
        Binding::Missing => return Ok(KeyResult::Missing),
    }
}

/// The cells of a space.
fn cells_of(text: &ModelText, owner: SpaceId, name: &Label) -> Result<KeyResult, AllocError>
    requires within { owner.0 < length text.now.spaces }
    requires of_kind { kind_in text.now owner name.now ≡ Some kind.Cells }
    ensures { IfOk result (λ found. found ≡ formula_of (member_in text.now owner name.now)) }
{
    let Some(formula) = text.formula(owner, name) else {
        unreachable!()
    };
    let formula = copy_formula(formula)?;
    let allow_none = text.allows_none(owner, name);
    Ok(KeyResult::Formula {
        formula,
        allow_none,
    })
}

/// The parameters of a path.
fn params_at(alloc: Global, text: &ModelText, path: &Path) -> Result<KeyResult, AllocError>
    requires { Valid text.now }
    ensures { IfOk result (λ found. found ≡ params_of (parameters text.now path.now)) }
{
    match text.layers(alloc, path)? {
        Some(layers) => return params_in(text, &layers),
        None => return Ok(KeyResult::Missing),
    }
}

/// The parameters of layers.
fn params_in(text: &ModelText, layers: &Order) -> Result<KeyResult, AllocError>
    requires { AllBelow (length text.now.spaces) layers.now }
    ensures { let params = first_with text.now (λ (s : SpaceRecord). s.params) layers.now in
        IfOk result (λ found. found ≡ params_of params) }
{
    match first_params(text, layers) {
        Some(params) => Ok(KeyResult::Params(copy_params(params.params())?)),
        None => Ok(KeyResult::Missing),
    }
}

/// Whether a path is a static one.
fn presence_of(alloc: Global, text: &ModelText, path: &Path) -> Result<KeyResult, AllocError>
    requires { Valid text.now }
    ensures { let there = if is_static text.now path.now then found.There else found.Missing in
        IfOk result (λ told. told ≡ there) }
{
    match text.layers(alloc, path)? {
        Some(_) => return Ok(KeyResult::There),
        None => return Ok(KeyResult::Missing),
    }
}
