//! The bytes of a project's files, made of what a text holds.
ghost use Rattle.std.specs.Prelude.{◌≡◌, ◌++◌, ◌∷◌, [], List, map, codes, OnOk, IfOk};
ghost use Rattle.std.specs.List.{concat};
ghost use Rattle.mx_syntax.specs.Lists.{flat};
ghost use Rattle.mx_project.specs.Lines as spec;
ghost use Rattle.mx_project.specs.Writing as files;

use crate::lines;
use mx_changes::spaces::is_within;
use mx_edit::reference::RefValue;
use mx_edit::table::Table;
use mx_members::members::Members;
use mx_model::space::{Cells, Space};
use mx_model::spaces::Spaces;
use mx_model::text::ModelText;
use mx_print::append::push;
use mx_value::label::Label;
use mx_value::node::Path;
use std::alloc::{AllocError, Global};

/// The bytes of the model file.
pub fn model_bytes(alloc: Global, text: &ModelText) -> Result<Vec<u8>, AllocError>
    ensures { IfOk result (λ bytes. bytes.items ≡ concat (files.model_lines text.now)) }
{
    let mut out = Vec::new(alloc);
    push(&mut out, b"mx project 1\n")?;
    push_spaces(&mut out, text.spaces())?;
    push_all_bases(&mut out, text.spaces())?;
    push_tables(&mut out, text.tables())?;
    return Ok(out);
}

/// Adds the lines of all spaces.
fn push_spaces(out: &mut Vec<u8>, spaces: &Spaces) -> Result<(), AllocError>
    ensures { OnOk result
        (out.new.items ≡ out.old.items ++ concat (files.space_lines spaces.now)) }
{
    for place in 0..spaces.len() {
        let Some(space) = spaces.get(place) else {
            unreachable!()
        };
        lines::push_space(out, space.get().path())?;
    }
    return Ok(());
}

/// Adds the lines of the bases of all spaces.
fn push_all_bases(out: &mut Vec<u8>, spaces: &Spaces) -> Result<(), AllocError>
    ensures { OnOk result
        (out.new.items ≡ out.old.items ++ concat (files.all_bases_lines spaces.now)) }
{
    for place in 0..spaces.len() {
        let Some(space) = spaces.get(place) else {
            unreachable!()
        };
        push_own_bases(out, space.get())?;
    }
    return Ok(());
}

/// Adds the line of a space's bases, where it has any.
fn push_own_bases(out: &mut Vec<u8>, space: &Space) -> Result<(), AllocError>
    ensures { OnOk result (out.new.items ≡
        out.old.items ++ concat (spec.bases_lines space.now.path space.now.bases)) }
{
    let bases = space.bases.as_slice();
    if bases.is_empty() {
        return Ok(());
    }
    return lines::push_bases(out, &space.path, bases);
}

/// Adds the lines of all tables.
fn push_tables(out: &mut Vec<u8>, tables: &Members<Label, Table>) -> Result<(), AllocError>
    ensures { OnOk result
        (out.new.items ≡ out.old.items ++ concat (files.table_lines tables.now)) }
{
    for place in 0..tables.count() {
        let Some((name, _)) = tables.at(place) else {
            unreachable!()
        };
        lines::push_table(out, name)?;
    }
    return Ok(());
}

/// The bytes of the file for the tree of a top space.
pub fn tree_bytes(alloc: Global, spaces: &Spaces, top: &Path) -> Result<Vec<u8>, AllocError>
    ensures { IfOk result (λ bytes.
        bytes.items ≡ concat (spec.lines_within top.now spaces.now)) }
{
    let mut out = Vec::new(alloc);
    for place in 0..spaces.len() {
        let Some(space) = spaces.get(place) else {
            unreachable!()
        };
        if is_within(top, space.get().path()) {
            push_members(alloc, &mut out, space.get())?;
        }
    }
    return Ok(out);
}

/// Adds the lines of a space's cells and parameters.
#[tactic(auto, using(crate::proofs::Pieces::join_two))]
fn push_members(alloc: Global, out: &mut Vec<u8>, space: &Space) -> Result<(), AllocError>
    ensures { OnOk result
        (out.new.items ≡ out.old.items ++ concat (spec.members_lines space.now)) }
{
    push_all_cells(alloc, out, &space.path, space.cells.get())?;
    return push_own_params(alloc, out, space);
}

/// Adds the line of a space's parameters, where it has any.
fn push_own_params(alloc: Global, out: &mut Vec<u8>, space: &Space) -> Result<(), AllocError>
    ensures { OnOk result (out.new.items ≡
        out.old.items ++ concat (spec.params_lines space.now.path space.now.params)) }
{
    match space.params() {
        Some(params) => return lines::push_params(alloc, out, space.path(), params.params()),
        None => return Ok(()),
    }
}

/// Adds the lines of all cells of a space.
fn push_all_cells(
    alloc: Global,
    out: &mut Vec<u8>,
    path: &Path,
    all: &Members<Label, Cells>,
) -> Result<(), AllocError>
    ensures { OnOk result (out.new.items ≡
        out.old.items ++ concat (flat (map (spec.cells_lines path.now) all.now))) }
{
    for place in 0..all.count() {
        let Some((name, cells)) = all.at(place) else {
            unreachable!()
        };
        push_own_cells(alloc, out, path, name, cells)?;
    }
    return Ok(());
}

/// Adds the lines of cells, with the one that they may give None.
fn push_own_cells(
    alloc: Global,
    out: &mut Vec<u8>,
    path: &Path,
    name: &Label,
    cells: &Cells,
) -> Result<(), AllocError>
    ensures { OnOk result (out.new.items ≡
        out.old.items ++ concat (spec.cells_lines path.now (name.now, cells.now))) }
{
    lines::push_cells(alloc, out, path, name, cells.formula.formula())?;
    if cells.allow_none {
        return lines::push_allow(out, path, name);
    }
    return Ok(());
}

/// The bytes of the file of references.
pub fn refs_bytes(alloc: Global, text: &ModelText) -> Result<Vec<u8>, AllocError>
    ensures { IfOk result (λ bytes. bytes.items ≡ concat (spec.refs_lines text.now)) }
{
    let mut out = Vec::new(alloc);
    push_all_owned(&mut out, text.spaces())?;
    push_globals(&mut out, text.globals())?;
    return Ok(out);
}

/// Adds the lines of the references of all spaces.
fn push_all_owned(out: &mut Vec<u8>, spaces: &Spaces) -> Result<(), AllocError>
    ensures { OnOk result
        (out.new.items ≡ out.old.items ++ concat (spec.all_owned_lines spaces.now)) }
{
    for place in 0..spaces.len() {
        let Some(space) = spaces.get(place) else {
            unreachable!()
        };
        push_own_references(out, space.get())?;
    }
    return Ok(());
}

/// Adds the lines of a space's references.
fn push_own_references(out: &mut Vec<u8>, space: &Space) -> Result<(), AllocError>
    ensures { OnOk result (out.new.items ≡
        out.old.items ++ concat (spec.owned_lines space.now.path space.now.references)) }
{
    return push_owned(out, &space.path, space.references.get());
}

/// Adds the lines of references of a space at this path.
fn push_owned(
    out: &mut Vec<u8>,
    path: &Path,
    references: &Members<Label, RefValue>,
) -> Result<(), AllocError>
    ensures { OnOk result
        (out.new.items ≡ out.old.items ++ concat (spec.owned_lines path.now references.now)) }
{
    for place in 0..references.count() {
        let Some((name, value)) = references.at(place) else {
            unreachable!()
        };
        lines::push_ref(out, path, name, value)?;
    }
    return Ok(());
}

/// Adds the lines of the references of the model.
fn push_globals(out: &mut Vec<u8>, globals: &Members<Label, RefValue>) -> Result<(), AllocError>
    ensures { OnOk result
        (out.new.items ≡ out.old.items ++ concat (spec.global_lines globals.now)) }
{
    for place in 0..globals.count() {
        let Some((name, value)) = globals.at(place) else {
            unreachable!()
        };
        lines::push_global(out, name, value)?;
    }
    return Ok(());
}
