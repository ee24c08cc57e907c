//! Static paths, and the cells that they bind.
ghost use Rattle.std.specs.Prelude.{◌≡◌, IfOk, length, option_copied, option_map};
ghost use Rattle.mx_syntax.specs.declared.stmt.Formula.{Formula as FormulaRecord};
ghost use Rattle.mx_c3.specs.InOrder.{AllBelow};
ghost use Rattle.mx_model.specs.Layers.{is_static};
ghost use Rattle.mx_model.specs.Binding.{binding, first_with, own_member};
ghost use Rattle.mx_model.specs.Inputs.{path_of, params_of, cells_params};
ghost use Rattle.mx_model.specs.Refused.{lacks_path, lacks_cells, is_cells, is_target};
ghost use Rattle.mx_model.specs.Paths.{split_last};
ghost use Rattle.mx_model.specs.Sound.{IsSound};
ghost use Rattle.mx_apply.specs.Needs.{CanFind};

use mx_c3::lists::Order;
use mx_edit::reference::RefValue;
use mx_list::list::List;
use mx_model::address::path_of;
use mx_model::layers::Layered;
use mx_model::lookup::{Binding, lookup};
use mx_model::text::ModelText;
use mx_syntax::stmt::Formula;
use mx_value::label::Label;
use mx_value::node::Path;
use mx_value::value::Addr;
use std::alloc::{AllocError, Global};

/// Whether a path is a static one.
pub fn is_static(alloc: Global, text: &ModelText, path: &Path) -> Result<bool, AllocError>
    requires { IsSound text.now }
    ensures { IfOk result (λ told. told ≡ is_static text.now path.now) }
{
    match text.layered(alloc, path)? {
        Layered::Layers(_) => return Ok(true),
        Layered::NoOrder => return Ok(true),
        Layered::NotStatic => return Ok(false),
    }
}

/// The formula of the cells that a path binds to a name.
pub fn formula_at<'a>(
    alloc: Global,
    text: &'a ModelText,
    path: &Path,
    name: &Label,
) -> Result<Option<&'a Formula>, AllocError>
    requires { IsSound text.now }
    ensures { let params = λ (f : FormulaRecord). f.params in
        let bound = params_of (binding text.now path.now name.now) in
        IfOk result (λ found. option_map params (option_copied found) ≡ bound) }
{
    match text.layered(alloc, path)? {
        Layered::Layers(layers) => return Ok(formula_in(text, &layers, name)),
        Layered::NoOrder => return Ok(None),
        Layered::NotStatic => return Ok(None),
    }
}

/// The formula of the cells that layers bind to a name.
fn formula_in<'a>(text: &'a ModelText, layers: &Order, name: &Label) -> Option<&'a Formula>
    requires { AllBelow (length text.now.spaces) layers.now }
    ensures { let params = λ (f : FormulaRecord). f.params in
        let member = first_with text.now (own_member text.now name.now) layers.now in
        option_map params (option_copied result) ≡ params_of member }
{
    match lookup(text, layers, name) {
        Binding::CellsHere { owner } => return text.formula(owner, name),
        Binding::Child => return None,
        Binding::Ref { owner: _ } => return None,
        Binding::Missing => return None,
    }
}

/// The formula of the cells of a name at an address without an item.
pub fn cells_formula<'a>(
    alloc: Global,
    text: &'a ModelText,
    at: &Addr,
    name: &Label,
) -> Result<Option<&'a Formula>, AllocError>
    requires { IsSound text.now }
    ensures { let params = λ (f : FormulaRecord). f.params in
        let bound = cells_params text.now (path_of at.now) name.now in
        IfOk result (λ found. option_map params (option_copied found) ≡ bound) }
{
    match path_of(alloc, at)? {
        Some(path) => return formula_at(alloc, text, &path, name),
        None => return Ok(None),
    }
}

/// Whether the names of an address without an item are no static path.
pub fn lacks_path(alloc: Global, text: &ModelText, at: &Addr) -> Result<bool, AllocError>
    requires { IsSound text.now }
    ensures { IfOk result (λ lacks. lacks ≡ lacks_path text.now (path_of at.now)) }
{
    let Some(path) = path_of(alloc, at)? else {
        return Ok(false);
    };
    let is_there = is_static(alloc, text, &path)?;
    return Ok(!is_there);
}

/// Whether an address without an item binds the name to no cells.
pub fn lacks_cells(
    alloc: Global,
    text: &ModelText,
    at: &Addr,
    name: &Label,
) -> Result<bool, AllocError>
    requires { IsSound text.now }
    ensures { IfOk result (λ lacks. lacks ≡ lacks_cells text.now (path_of at.now) name.now) }
{
    let Some(path) = path_of(alloc, at)? else {
        return Ok(false);
    };
    let found = formula_at(alloc, text, &path, name)?;
    return Ok(found.is_none());
}

/// Whether the last name of a path is bound to cells.
fn is_cells(alloc: Global, text: &ModelText, path: &Path) -> Result<bool, AllocError>
    requires { IsSound text.now }
    ensures { IfOk result (λ told. told ≡ is_cells text.now (split_last path.now)) }
{
    let Some((parent, name)) = split_last(alloc, path)? else {
        return Ok(false);
    };
    let found = formula_at(alloc, text, &parent, &name)?;
    return Ok(found.is_some());
}

/// The names of a path but the last, and the last.
fn split_last(alloc: Global, path: &Path) -> Result<Option<(Path, Label)>, AllocError>
    ensures { IfOk result (λ split. split ≡ split_last path.now) }
{
    let [names @ .., last] = path.as_slice() else {
        return Ok(None);
    };
    let parent = copy_names(alloc, names)?;
    return Ok(Some((parent, last.copy()?)));
}

/// A path of these names.
fn copy_names(alloc: Global, names: &[Label]) -> Result<Path, AllocError>
    ensures { IfOk result (λ path. path ≡ names.now) }
{
    let mut copies = Vec::new(alloc);
    for name in names {
        copies.push(name.copy()?)?;
    }
    List::from_vec(alloc, copies)
}

/// Whether what a reference names is there.
pub fn is_target(alloc: Global, text: &ModelText, value: &RefValue) -> Result<bool, AllocError>
    requires { CanFind text.now value.now }
    ensures { IfOk result (λ told. told ≡ is_target text.now value.now) }
{
    match value {
        RefValue::Plain(_) => return Ok(true),
        RefValue::Table(name) => return Ok(text.table(name).is_some()),
        RefValue::Target { path, fixed: _ } => {
            if is_static(alloc, text, path)? {
                return Ok(true);
            }
            return is_cells(alloc, text, path);
        }
    }
}
