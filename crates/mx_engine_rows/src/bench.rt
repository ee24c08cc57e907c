//! What rows are carried out on.
ghost use Rattle.std.specs.Prelude.{IfOk};
ghost use Rattle.mx_limit_laws.specs.Texts.{HasSmallFormulas};
ghost use Rattle.mx_engine_rows.specs.Rows.{IsFitEdit};

use crate::reading::{NoRow, edit, first_word, node};
use mx_commands::Interpreter;
use mx_edit::edit::Edit;
use mx_engine::engine::Engine;
use mx_frames::steps::Steps;
use mx_outside::SureFiles;
use mx_prepare::prepare::{commit, prepare};
use mx_print::append::push;
use mx_print::value::push_node;
use mx_text::blocks::push_accepted;
use mx_value::node::Node;
use mx_world::world::World;
use std::alloc::{AllocError, Global};
use std::sync::ledger::Ledger;

/// An engine with the block that answers the row at hand, and no files.
#[derive(Drop)]
pub struct Bench {
    pub interpreter: Interpreter,
    pub files: SureFiles,
}

impl Bench {
    pub fn new(alloc: Global) -> Result<Bench, AllocError> {
        Ok(Bench {
            interpreter: Interpreter::new(alloc)?,
            files: SureFiles::new(Vec::new(alloc)),
        })
    }
}

/// Does what a row says, and puts its block in the place of the last.
pub fn carry_out<L: Ledger>(
    bench: &mut Bench,
    row: &[u8],
    steps: &mut Steps<L>,
) -> Result<(), AllocError> {
    let (word, rest) = first_word(row);
    bench.interpreter.block.clear();
    if word == b"bound".as_slice() {
        return told(bound(bench, rest), &mut bench.interpreter.block);
    }
    if word == b"replace".as_slice() {
        return told(replace(bench, rest), &mut bench.interpreter.block);
    }
    match bench.interpreter.answer(1, row, &mut bench.files, steps) {
        Ok(()) => Ok(()),
        Err(_) => Err(AllocError),
    }
}

/// Tells of a row that says nothing.
fn told(outcome: Result<(), NoRow>, block: &mut Vec<u8>) -> Result<(), AllocError> {
    match outcome {
        Ok(()) => Ok(()),
        Err(NoRow::Part) => push(block, b"no row\n"),
        Err(NoRow::NoMemory) => Err(AllocError),
    }
}

/// `bound NODE`: tells the bound form of a node.
fn bound(bench: &mut Bench, text: &[u8]) -> Result<(), NoRow> {
    let node = node(bench.interpreter.alloc, text)?;
    let form = bench.interpreter.engine.bound(&node)?;
    Ok(push_form(&form, &mut bench.interpreter.block)?)
}

fn push_form(form: &Option<Node>, block: &mut Vec<u8>) -> Result<(), AllocError> {
    match form {
        Some(form) => push_node(block, form)?,
        None => push(block, b"none")?,
    }
    push(block, b"\n")
}

/// `replace EDIT`: puts another world in, the new model with one edit made.
fn replace(bench: &mut Bench, text: &[u8]) -> Result<(), NoRow> {
    let edit = edit(bench.interpreter.alloc, text)?;
    let world = edited(bench.interpreter.alloc, &edit)?;
    bench.interpreter.engine.replace(world);
    Ok(push_accepted(&mut bench.interpreter.block)?)
}

/// The new model with one edit made.
fn edited(alloc: Global, edit: &Edit) -> Result<World, NoRow>
    requires { IsFitEdit edit.now }
    ensures { IfOk result HasSmallFormulas }
{
    mx_limit_laws::laws::laws();
    let mut world = World::new(alloc)?;
    match prepare(alloc, &world, edit) {
        Ok(prepared) => {
            commit(prepared, &mut world);
            Ok(world)
        }
        Err(_) => Err(NoRow::Part),
    }
}
