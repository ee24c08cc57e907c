//! The lines that a project is written in, each added behind the bytes of a buffer.
ghost use Rattle.std.specs.Prelude.{◌≡◌, ◌++◌, codes, map, OnOk};
ghost use Rattle.mx_print.specs.Texts.{commas};
ghost use Rattle.mx_text.specs.Edit.{path_text};
ghost use Rattle.mx_project.specs.Lines as spec;

use mx_edit::reference::RefValue;
use mx_print::append::push;
use mx_print::formula::{print, print_params};
use mx_print::value::{push_node, push_value};
use mx_syntax::stmt::{Formula, Params};
use mx_text::edit::push_path;
use mx_value::label::Label;
use mx_value::node::{Node, Path};
use mx_value::value::Value;
use std::alloc::{AllocError, Global};

/// Adds a member of a space: its path, and its name behind a dot.
fn push_member(out: &mut Vec<u8>, path: &Path, name: &Label) -> Result<(), AllocError>
    ensures { OnOk result
        (out.new.items ≡ out.old.items ++ spec.member_text path.now name.now) }
{
    push_path(out, path.as_slice())?;
    push(out, b".")?;
    push(out, name.as_slice())
}

/// Adds the line of a space.
pub fn push_space(out: &mut Vec<u8>, path: &Path) -> Result<(), AllocError>
    ensures { OnOk result (out.new.items ≡ out.old.items ++ spec.space_line path.now) }
{
    push(out, b"space ")?;
    push_path(out, path.as_slice())?;
    push(out, b"\n")
}

/// Adds paths with commas between them.
fn push_paths(out: &mut Vec<u8>, paths: &[Path]) -> Result<(), AllocError>
    ensures { OnOk result
        (out.new.items ≡ out.old.items ++ commas (map path_text paths.now)) }
{
    for (i, path) in paths.iter().enumerate() {
        if i > 0 {
            push(out, b", ")?;
        }
        push_path(out, path.as_slice())?;
    }
    Ok(())
}

/// Adds the line of a space's bases.
pub fn push_bases(out: &mut Vec<u8>, path: &Path, bases: &[Path]) -> Result<(), AllocError>
    ensures { OnOk result
        (out.new.items ≡ out.old.items ++ spec.bases_line path.now bases.now) }
{
    push(out, b"bases ")?;
    push_path(out, path.as_slice())?;
    push(out, b": ")?;
    push_paths(out, bases)?;
    push(out, b"\n")
}

/// Adds the line of a table.
pub fn push_table(out: &mut Vec<u8>, name: &Label) -> Result<(), AllocError>
    ensures { OnOk result (out.new.items ≡ out.old.items ++ spec.table_line name.now) }
{
    push(out, b"table ")?;
    push(out, name.as_slice())?;
    push(out, b"\n")
}

/// Adds the lines of cells.
pub fn push_cells(
    alloc: Global,
    out: &mut Vec<u8>,
    path: &Path,
    name: &Label,
    formula: &Formula,
) -> Result<(), AllocError>
    ensures { OnOk result
        (out.new.items ≡ out.old.items ++ spec.cells_line path.now name.now formula.now) }
{
    let text = print(alloc, formula)?;
    push(out, b"cells ")?;
    push_member(out, path, name)?;
    push(out, text.as_slice())
}

/// Adds the line that cells may give None.
pub fn push_allow(out: &mut Vec<u8>, path: &Path, name: &Label) -> Result<(), AllocError>
    ensures { OnOk result
        (out.new.items ≡ out.old.items ++ spec.allow_line path.now name.now) }
{
    push(out, b"allow ")?;
    push_member(out, path, name)?;
    push(out, b"\n")
}

/// Adds the lines of a space's parameters.
pub fn push_params(
    alloc: Global,
    out: &mut Vec<u8>,
    path: &Path,
    params: &Params,
) -> Result<(), AllocError>
    ensures { OnOk result
        (out.new.items ≡ out.old.items ++ spec.params_line path.now params.now) }
{
    let text = print_params(alloc, params)?;
    push(out, b"params ")?;
    push_path(out, path.as_slice())?;
    push(out, text.as_slice())
}

/// Adds what a reference refers to.
fn push_reference(out: &mut Vec<u8>, value: &RefValue) -> Result<(), AllocError>
    ensures { OnOk result (out.new.items ≡ out.old.items ++ spec.reference_text value.now) }
{
    match value {
        RefValue::Plain(value) => push_value(out, value.get()),
        RefValue::Table(name) => {
            push(out, b"table ")?;
            push(out, name.as_slice())
        }
        RefValue::Target { path, fixed } => {
            push(out, target_word(*fixed))?;
            push_path(out, path.as_slice())
        }
    }
}

fn target_word(fixed: bool) -> &'static [u8]
    ensures { result.now ≡ spec.target_word fixed }
{
    if fixed { b"abs " } else { b"to " }
}

/// Adds the line of a space's reference.
pub fn push_ref(
    out: &mut Vec<u8>,
    path: &Path,
    name: &Label,
    value: &RefValue,
) -> Result<(), AllocError>
    ensures { OnOk result
        (out.new.items ≡ out.old.items ++ spec.ref_line path.now name.now value.now) }
{
    push(out, b"ref ")?;
    push_member(out, path, name)?;
    push(out, b" = ")?;
    push_reference(out, value)?;
    push(out, b"\n")
}

/// Adds the line of a reference of the model.
pub fn push_global(out: &mut Vec<u8>, name: &Label, value: &RefValue) -> Result<(), AllocError>
    ensures { OnOk result
        (out.new.items ≡ out.old.items ++ spec.global_line name.now value.now) }
{
    push(out, b"global ")?;
    push(out, name.as_slice())?;
    push(out, b" = ")?;
    push_reference(out, value)?;
    push(out, b"\n")
}

/// Adds the line of an input.
pub fn push_input(out: &mut Vec<u8>, node: &Node, value: &Value) -> Result<(), AllocError>
    ensures { OnOk result
        (out.new.items ≡ out.old.items ++ spec.input_line node.now value.now) }
{
    push(out, b"input ")?;
    push_node(out, node)?;
    push(out, b" = ")?;
    push_value(out, value)?;
    push(out, b"\n")
}
