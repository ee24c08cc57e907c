//! The files of a project, in their order.
ghost use Rattle.std.specs.Prelude.{◌≡◌, ◌++◌, ◌∷◌, [], List, map, codes, OnOk, IfOk, MatchOption};
ghost use Rattle.std.specs.List.{AllByRecursion};
ghost use Rattle.std.specs.Option.{option_to_list};
ghost use Rattle.mx_project.specs.Folder.{top_name};
ghost use Rattle.mx_project.specs.Writing as spec;
ghost use Rattle.mx_project.specs.Writing.{IsProjectText, IsShort, IsFirstBig, EndsText};

use crate::bytes::{model_bytes, refs_bytes, tree_bytes};
use crate::files::{ProjectFile, file_of_table, is_short};
use crate::folder::{label_of, space_file};
use crate::inputs::inputs_bytes;
use mx_edit::table::Table;
use mx_members::members::Members;
use mx_model::text::ModelText;
use mx_value::label::Label;
use mx_value::node::Path;
use std::alloc::{AllocError, Global};

/// The files of a project, in their order.
pub fn project_files(alloc: Global, text: &ModelText) -> Result<Vec<ProjectFile>, AllocError>
    ensures { IfOk result (λ all. IsProjectText text.now all.items) }
{
    let mut all = Vec::new(alloc);
    push_model_file(alloc, &mut all, text)?;
    push_table_files(alloc, &mut all, text.tables())?;
    push_space_files(alloc, &mut all, text)?;
    push_end_files(alloc, &mut all, text)?;
    return Ok(all);
}

/// Adds the model file.
fn push_model_file(
    alloc: Global,
    all: &mut Vec<ProjectFile>,
    text: &ModelText,
) -> Result<(), AllocError>
    ensures { OnOk result
        (all.new.items ≡ all.old.items ++ spec.file_of_model text.now ∷ []) }
{
    let bytes = model_bytes(alloc, text)?;
    return push_named(alloc, all, b"model.mx", bytes);
}

/// Adds a file of this name and these bytes.
fn push_named(
    alloc: Global,
    all: &mut Vec<ProjectFile>,
    name: &[u8],
    bytes: Vec<u8>,
) -> Result<(), AllocError>
    ensures { OnOk result (all.new.items ≡
        all.old.items ++ (record { name = name.now; bytes = bytes.items }) ∷ []) }
{
    let name = label_of(alloc, name)?;
    all.push(ProjectFile { name, bytes })?;
    return Ok(());
}

/// Adds the files of all tables.
fn push_table_files(
    alloc: Global,
    all: &mut Vec<ProjectFile>,
    tables: &Members<Label, Table>,
) -> Result<(), AllocError>
    ensures { OnOk result (all.new.items ≡ all.old.items ++ spec.table_files tables.now) }
{
    for place in 0..tables.count() {
        let Some((name, table)) = tables.at(place) else {
            unreachable!()
        };
        let file = file_of_table(alloc, name, table)?;
        all.push(file)?;
    }
    return Ok(());
}

/// Adds the files of all top spaces.
fn push_space_files(
    alloc: Global,
    all: &mut Vec<ProjectFile>,
    text: &ModelText,
) -> Result<(), AllocError>
    ensures { OnOk result (all.new.items ≡ all.old.items ++ spec.space_files text.now) }
{
    let spaces = text.spaces();
    for place in 0..spaces.len() {
        let Some(space) = spaces.get(place) else {
            unreachable!()
        };
        push_tree_file(alloc, all, text, space.get().path())?;
    }
    return Ok(());
}

/// Adds the file of the space at a path, where it is at the top.
fn push_tree_file(
    alloc: Global,
    all: &mut Vec<ProjectFile>,
    text: &ModelText,
    path: &Path,
) -> Result<(), AllocError>
    ensures { let top = option_to_list (top_name path.now) in OnOk result
        (all.new.items ≡ all.old.items ++ map (spec.file_of_tree text.now) top) }
{
    match path.as_slice() {
        [top] => {
            let bytes = tree_bytes(alloc, text.spaces(), path)?;
            let name = space_file(alloc, top)?;
            all.push(ProjectFile { name, bytes })?;
            return Ok(());
        }
        _ => return Ok(()),
    }
}

/// Adds the files of the references and of the inputs.
fn push_end_files(
    alloc: Global,
    all: &mut Vec<ProjectFile>,
    text: &ModelText,
) -> Result<(), AllocError>
    ensures { OnOk result (EndsText text.now all.old.items all.new.items) }
{
    let refs = refs_bytes(alloc, text)?;
    push_named(alloc, all, b"refs.mx", refs)?;
    let inputs = inputs_bytes(alloc, text.inputs())?;
    return push_named(alloc, all, b"inputs.mx", inputs);
}

/// The first file that is longer than a file may be.
pub fn first_too_big(all: &[ProjectFile]) -> Option<&ProjectFile>
    ensures { MatchOption result (AllByRecursion IsShort all.now)
        (λ big. IsFirstBig all.now big.now) }
{
    for file in all {
        if !is_short(file) {
            return Some(file);
        }
    }
    return None;
}
