//! Commands and edits, each as the line of a script that says it.

use crate::sources::push_printed;
use mx_edit::edit::Edit;
use mx_edit::reference::RefValue;
use mx_edit::scope::Scope;
use mx_print::append::{push, push_number};
use mx_print::formula::print_params;
use mx_print::value::{push_node, push_value};
use mx_script::{Command, read_command};
use mx_syntax::stmt::{Formula, Params};
use mx_text::address::push_address;
use mx_text::edit::push_path;
use mx_text::form::push_form_refusal;
use mx_value::label::Label;
use mx_value::node::{Node, Path};
use mx_value::value::{Addr, Value};
use mx_words::table::{CommandWord, WORDS};
use std::alloc::{AllocError, Global};

/// A word and a path.
fn push_at(out: &mut Vec<u8>, word: &[u8], path: &[Label]) -> Result<(), AllocError> {
    push(out, word)?;
    push_path(out, path)
}

/// A word and a name in a space. A name of the model has no path.
fn push_named(
    out: &mut Vec<u8>,
    word: &[u8],
    path: &[Label],
    name: &Label,
) -> Result<(), AllocError> {
    push_at(out, word, path)?;
    if !path.is_empty() {
        push(out, b".")?;
    }
    push(out, name.as_slice())
}

/// A word and a node.
fn push_asked(out: &mut Vec<u8>, word: &[u8], node: &Node) -> Result<(), AllocError> {
    push(out, word)?;
    push_node(out, node)
}

fn push_cells(
    alloc: Global,
    out: &mut Vec<u8>,
    path: &[Label],
    name: &Label,
    formula: &Formula,
) -> Result<(), AllocError> {
    push_named(out, b"cells ", path, name)?;
    push_printed(alloc, out, formula)?;
    out.pop();
    Ok(())
}

fn push_params(
    alloc: Global,
    out: &mut Vec<u8>,
    path: &[Label],
    params: &Option<Params>,
) -> Result<(), AllocError> {
    let Some(params) = params else {
        return push_at(out, b"unparams ", path);
    };
    push_at(out, b"params ", path)?;
    push(out, &print_params(alloc, params)?)?;
    out.pop();
    Ok(())
}

/// What a reference holds.
fn push_held(out: &mut Vec<u8>, value: &RefValue) -> Result<(), AllocError> {
    match value {
        RefValue::Plain(value) => push_value(out, value.get()),
        RefValue::Table(name) => {
            push(out, b"table ")?;
            push(out, name.as_slice())
        }
        RefValue::Target { path, fixed: true } => push_at(out, b"abs ", path.as_slice()),
        RefValue::Target { path, fixed: false } => push_at(out, b"to ", path.as_slice()),
    }
}

fn push_reference(
    out: &mut Vec<u8>,
    path: &[Label],
    name: &Label,
    value: &RefValue,
) -> Result<(), AllocError> {
    push_named(out, b"ref ", path, name)?;
    push(out, b" = ")?;
    push_held(out, value)
}

fn push_bases(out: &mut Vec<u8>, path: &[Label], bases: &[Path]) -> Result<(), AllocError> {
    push_at(out, b"bases ", path)?;
    push(out, b":")?;
    for (place, base) in bases.iter().enumerate() {
        let before: &[u8] = if place > 0 { b", " } else { b" " };
        push_at(out, before, base.as_slice())?;
    }
    Ok(())
}

fn push_arguments(out: &mut Vec<u8>, arguments: &[Value]) -> Result<(), AllocError> {
    push(out, b"(")?;
    for (place, value) in arguments.iter().enumerate() {
        if place > 0 {
            push(out, b", ")?;
        }
        push_value(out, value)?;
    }
    push(out, b")")
}

/// Cells at an address.
fn push_cells_at(
    alloc: Global,
    out: &mut Vec<u8>,
    space: &Addr,
    name: &Label,
) -> Result<(), AllocError> {
    push_address(alloc, out, space)?;
    push(out, b".")?;
    push(out, name.as_slice())
}

fn push_input(alloc: Global, out: &mut Vec<u8>, edit: &Edit) -> Result<(), AllocError> {
    match edit {
        Edit::SetInput {
            space,
            name,
            args,
            value,
        } => {
            push(out, b"input ")?;
            push_cells_at(alloc, out, space, name)?;
            push_arguments(out, args.as_slice())?;
            push(out, b" = ")?;
            push_value(out, value)
        }
        Edit::DelInput { space, name, args } => {
            push(out, b"uninput ")?;
            push_cells_at(alloc, out, space, name)?;
            push_arguments(out, args.as_slice())
        }
        _ => push(out, b"another edit"),
    }
}

fn push_other(alloc: Global, out: &mut Vec<u8>, edit: &Edit) -> Result<(), AllocError> {
    match edit {
        Edit::SetAllowNone {
            path,
            name,
            flag: true,
        } => push_named(out, b"allow ", path.as_slice(), name),
        Edit::SetAllowNone {
            path,
            name,
            flag: false,
        } => push_named(out, b"disallow ", path.as_slice(), name),
        Edit::SetRef { path, name, value } => push_reference(out, path.as_slice(), name, value),
        Edit::DelRef { path, name } => push_named(out, b"unref ", path.as_slice(), name),
        Edit::SetParams { path, params } => push_params(alloc, out, path.as_slice(), params),
        _ => push_input(alloc, out, edit),
    }
}

/// Adds an edit.
pub(crate) fn push_edit(alloc: Global, out: &mut Vec<u8>, edit: &Edit) -> Result<(), AllocError> {
    match edit {
        Edit::NewSpace { parent, name } => push_named(out, b"space ", parent.as_slice(), name),
        Edit::DelSpace { path } => push_at(out, b"unspace ", path.as_slice()),
        Edit::SetBases { path, bases } => push_bases(out, path.as_slice(), bases.as_slice()),
        Edit::SetCells {
            path,
            name,
            formula,
        } => push_cells(alloc, out, path.as_slice(), name, formula),
        Edit::DelCells { path, name } => push_named(out, b"uncells ", path.as_slice(), name),
        _ => push_other(alloc, out, edit),
    }
}

fn push_scope(alloc: Global, out: &mut Vec<u8>, scope: &Scope) -> Result<(), AllocError> {
    match scope {
        Scope::All => push(out, b"clear all"),
        Scope::Space(address) => {
            push(out, b"clear space ")?;
            push_address(alloc, out, address)
        }
        Scope::Cells(address, name) => {
            push(out, b"clear cells ")?;
            push_cells_at(alloc, out, address, name)
        }
        Scope::One(node) => push_asked(out, b"clear node ", node),
    }
}

fn push_limit(out: &mut Vec<u8>, limit: u32) -> Result<(), AllocError> {
    push(out, b"limit ")?;
    push_number(out, u64::from(limit))
}

fn push_table(out: &mut Vec<u8>, name: &Label, file: &Label) -> Result<(), AllocError> {
    push(out, b"table ")?;
    push(out, name.as_slice())?;
    push(out, b" from ")?;
    push(out, file.as_slice())
}

fn push_command(alloc: Global, out: &mut Vec<u8>, command: &Command) -> Result<(), AllocError> {
    match command {
        Command::Edit(edit) => push_edit(alloc, out, edit),
        Command::Table { name, file } => push_table(out, name, file),
        Command::Eval(node) => push_asked(out, b"eval ", node),
        Command::Precedents(node) => push_asked(out, b"precedents ", node),
        Command::Succs(node) => push_asked(out, b"succs ", node),
        Command::Order(path) => push_at(out, b"order ", path.as_slice()),
        Command::Held(None) => push(out, b"held"),
        Command::Held(Some(node)) => push_asked(out, b"held ", node),
        Command::Clear(scope) => push_scope(alloc, out, scope),
        Command::Limit(limit) => push_limit(out, *limit),
    }
}

/// The command that a text says to a reader of these words.
pub(crate) fn push_command_by(
    alloc: Global,
    out: &mut Vec<u8>,
    words: &[CommandWord],
    text: &[u8],
) -> Result<(), AllocError> {
    match read_command(alloc, words, text) {
        Ok(command) => push_command(alloc, out, &command),
        Err(refusal) => push_form_refusal(out, refusal),
    }
}

/// The command that a text says.
pub(crate) fn push_command_of(
    alloc: Global,
    out: &mut Vec<u8>,
    text: &[u8],
) -> Result<(), AllocError> {
    push_command_by(alloc, out, &WORDS, text)
}
