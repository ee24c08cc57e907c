//! Spaces with one part changed. They share all others with the spaces that they are made of.
ghost use Rattle.std.specs.Prelude.{◌≡◌, IfOk, IsTrue, is_some};
ghost use Rattle.std.specs.Map.{lookup};
ghost use Rattle.mx_value.specs.Name.{same_name};
ghost use Rattle.mx_model.specs.Change.{define, without, define_cells, set_allow};

use crate::defined::{with_copy, with_made};
use mx_code::compiled::{Compiled, CompiledParams};
use mx_edit::copies::{copy_formula, copy_params};
use mx_edit::reference::RefValue;
use mx_list::list::List;
use mx_list::shared::Shared;
use mx_members::members::Members;
use mx_model::space::{Cells, Space};
use mx_syntax::stmt::{Formula, Params};
use mx_value::label::Label;
use mx_value::node::Path;
use std::alloc::{AllocError, Global};

/// The same parameters, where there are any.
fn share_params(params: &Option<CompiledParams>) -> Result<Option<CompiledParams>, AllocError>
    ensures { IfOk result (λ copied. copied ≡ params.now) }
{
    match params {
        Some(params) => Ok(Some(params.copy()?)),
        None => Ok(None),
    }
}

/// The path, the bases and the parameters of a space.
#[derive(Drop)]
struct Head {
    path: Path,
    bases: List<Path>,
    params: Option<CompiledParams>,
}

/// Those of a space.
fn copy_head(space: &Space) -> Result<Head, AllocError>
    ensures path { IfOk result (λ h. h.path ≡ space.now.path) }
    ensures bases { IfOk result (λ h. h.bases ≡ space.now.bases) }
    ensures params { IfOk result (λ h. h.params ≡ space.now.params) }
{
    let params = share_params(&space.params)?;
    let path = space.path.copy()?;
    let bases = space.bases.copy()?;
    Ok(Head {
        path,
        bases,
        params,
    })
}

/// The same space.
fn copy_space(space: &Space) -> Result<Space, AllocError>
    ensures { IfOk result (λ s. s ≡ space.now) }
{
    let head = copy_head(space)?;
    let cells = space.cells.copy()?;
    let references = space.references.copy()?;
    Ok(Space {
        path: head.path,
        bases: head.bases,
        params: head.params,
        cells,
        references,
    })
}

/// The space with these cells in place of its own.
fn with_all_cells(
    alloc: Global,
    space: &Space,
    cells: Members<Label, Cells>,
) -> Result<Space, AllocError>
    ensures { IfOk result (λ s. s ≡ record space.now { cells = cells }) }
{
    let cells = Shared::new(alloc, cells)?;
    let made = copy_space(space)?;
    Ok(Space { cells, ..made })
}

/// The space with these references in place of its own.
fn with_all_references(
    alloc: Global,
    space: &Space,
    references: Members<Label, RefValue>,
) -> Result<Space, AllocError>
    ensures { IfOk result (λ s. s ≡ record space.now { references = references }) }
{
    let references = Shared::new(alloc, references)?;
    let made = copy_space(space)?;
    Ok(Space { references, ..made })
}

/// The space with cells of a name. Cells that are there keep their place and setting.
pub fn with_cells(
    alloc: Global,
    space: &Space,
    name: &Label,
    formula: &Formula,
) -> Result<Space, AllocError>
    ensures { let cells = define_cells space.now.cells name.now formula.now in
        IfOk result (λ s. s ≡ record space.now { cells = cells }) }
{
    let allow_none = space.allows_none(name);
    let formula = compile_formula(alloc, formula)?;
    let made = Cells {
        formula,
        allow_none,
    };
    let cells = with_made(alloc, space.cells.get(), name, made)?;
    with_all_cells(alloc, space, cells)
}

/// A formula with its code.
fn compile_formula(alloc: Global, formula: &Formula) -> Result<Compiled, AllocError>
    ensures { IfOk result (λ compiled. compiled ≡ formula.now) }
{
    let formula = copy_formula(formula)?;
    Compiled::new(alloc, formula)
}

/// The space without the cells of a name.
pub fn without_cells(alloc: Global, space: &Space, name: &Label) -> Result<Space, AllocError>
    ensures { let cells = without same_name space.now.cells name.now in
        IfOk result (λ s. s ≡ record space.now { cells = cells }) }
{
    let cells = space.cells.get().without(alloc, name)?;
    with_all_cells(alloc, space, cells)
}

/// The space with another setting of its cells of a name.
pub fn with_setting(
    alloc: Global,
    space: &Space,
    name: &Label,
    allow_none: bool,
) -> Result<Space, AllocError>
    requires { IsTrue (is_some (lookup (same_name name.now) space.now.cells)) }
    ensures { let cells = set_allow space.now.cells name.now allow_none in
        IfOk result (λ s. s ≡ record space.now { cells = cells }) }
{
    let Some(old) = space.cells(name) else {
        unreachable!()
    };
    let formula = old.formula.copy()?;
    let made = Cells {
        formula,
        allow_none,
    };
    let cells = with_made(alloc, space.cells.get(), name, made)?;
    with_all_cells(alloc, space, cells)
}

/// The space with a reference of a name. One that is there keeps its place.
pub fn with_reference(
    alloc: Global,
    space: &Space,
    name: &Label,
    value: &RefValue,
) -> Result<Space, AllocError>
    ensures { let references = define same_name space.now.references name.now value.now in
        IfOk result (λ s. s ≡ record space.now { references = references }) }
{
    let references = with_copy(alloc, space.references.get(), name, value)?;
    with_all_references(alloc, space, references)
}

/// The space without the reference of a name.
pub fn without_reference(alloc: Global, space: &Space, name: &Label) -> Result<Space, AllocError>
    ensures { let references = without same_name space.now.references name.now in
        IfOk result (λ s. s ≡ record space.now { references = references }) }
{
    let references = space.references.get().without(alloc, name)?;
    with_all_references(alloc, space, references)
}

/// The space with these parameters, or none.
pub fn with_params(
    alloc: Global,
    space: &Space,
    params: &Option<Params>,
) -> Result<Space, AllocError>
    ensures { IfOk result (λ s. s ≡ record space.now { params = params.now }) }
{
    let params = compile_params(alloc, params)?;
    let made = copy_space(space)?;
    Ok(Space { params, ..made })
}

/// The space with these bases.
pub fn with_bases(space: &Space, bases: &List<Path>) -> Result<Space, AllocError>
    ensures { IfOk result (λ s. s ≡ record space.now { bases = bases.now }) }
{
    let bases = bases.copy()?;
    let made = copy_space(space)?;
    Ok(Space { bases, ..made })
}

/// Parameters with their code, where there are any.
fn compile_params(
    alloc: Global,
    params: &Option<Params>,
) -> Result<Option<CompiledParams>, AllocError>
    ensures { IfOk result (λ compiled. compiled ≡ params.now) }
{
    match params {
        Some(params) => Ok(Some(compile_list(alloc, params)?)),
        None => Ok(None),
    }
}

/// A list of parameters with its code.
fn compile_list(alloc: Global, params: &Params) -> Result<CompiledParams, AllocError>
    ensures { IfOk result (λ compiled. compiled ≡ params.now) }
{
    let params = copy_params(params)?;
    CompiledParams::new(alloc, params)
}
