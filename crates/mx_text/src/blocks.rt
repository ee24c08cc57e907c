//! The blocks that answer the commands of a script, each added behind the bytes of a buffer.
ghost use Rattle.std.specs.Prelude.{◌≡◌, ◌≢◌, ◌++◌, map, length, codes, OnOk};
ghost use Rattle.mx_syntax.specs.Lists.{flat};
ghost use Rattle.mx_print.specs.Texts.{commas};
ghost use Rattle.mx_text.specs.Edit.{path_text};
ghost use Rattle.mx_text.specs.Blocks as spec;
ghost use Rattle.mx_text.specs.Blocks.{node_line, read_line};

use crate::counted::push_counted;
use crate::edit::{push_edit_refusal, push_path};
use crate::evaluation::push_refusal;
use crate::file::{push_missing, push_too_big};
use crate::reads::push_read;
use crate::table::push_table_refusal;
use mx_edit::refusal::EditRefusal;
use mx_edit::table::TableRefusal;
use mx_print::append::{push, push_number};
use mx_print::value::{push_node, push_value};
use mx_value::label::Label;
use mx_value::node::{Node, Path};
use mx_value::read::Read;
use mx_value::refusal::EvalRefusal;
use mx_value::value::Value;
use std::alloc::{AllocError, Global};

/// Adds the block of an evaluation that gave a value and began so many runs.
pub fn push_value_block(out: &mut Vec<u8>, value: &Value, runs: u32) -> Result<(), AllocError>
    ensures { OnOk result (out.new.items ≡ out.old.items ++ spec.eval_block (Ok value.now) runs) }
{
    push(out, b"= ")?;
    push_value(out, value)?;
    push(out, b" runs ")?;
    push_number(out, runs as u64)?;
    push(out, b"\n")
}

/// Adds the block of an evaluation that gave no value, or of precedents that are refused so.
pub fn push_refusal_block(out: &mut Vec<u8>, refusal: &EvalRefusal) -> Result<(), AllocError>
    ensures value { OnOk result
        (out.new.items ≡ out.old.items ++ spec.eval_block (Err refusal.now) 0) }
    ensures reads { OnOk result
        (out.new.items ≡ out.old.items ++ spec.reads_block (Err refusal.now)) }
    ensures memory { OnOk result (refusal.now ≢ EvalRefusal.NoMemory) }
{
    push_refusal(out, refusal)?;
    push(out, b"\n")
}

fn push_read_lines(alloc: Global, out: &mut Vec<u8>, reads: &[Read]) -> Result<(), AllocError>
    ensures { OnOk result (out.new.items ≡ out.old.items ++ flat (map read_line reads.now)) }
{
    for read in reads {
        push_read_line(alloc, out, read)?;
    }
    Ok(())
}

fn push_read_line(alloc: Global, out: &mut Vec<u8>, read: &Read) -> Result<(), AllocError>
    ensures { OnOk result (out.new.items ≡ out.old.items ++ read_line read.now) }
{
    push_read(alloc, out, read)?;
    push(out, b"\n")
}

/// Adds the block of a node's precedents.
pub fn push_reads_block(alloc: Global, out: &mut Vec<u8>, reads: &[Read]) -> Result<(), AllocError>
    ensures { OnOk result (out.new.items ≡ out.old.items ++ spec.reads_block (Ok reads.now)) }
{
    push(out, b"reads ")?;
    push_number(out, reads.len() as u64)?;
    push(out, b"\n")?;
    push_read_lines(alloc, out, reads)
}

fn push_node_lines(out: &mut Vec<u8>, nodes: &[Node]) -> Result<(), AllocError>
    ensures { OnOk result (out.new.items ≡ out.old.items ++ flat (map node_line nodes.now)) }
{
    for node in nodes {
        push_node_line(out, node)?;
    }
    Ok(())
}

fn push_node_line(out: &mut Vec<u8>, node: &Node) -> Result<(), AllocError>
    ensures { OnOk result (out.new.items ≡ out.old.items ++ node_line node.now) }
{
    push_node(out, node)?;
    push(out, b"\n")
}

/// Adds the block of a node's successors.
pub fn push_succs_block(out: &mut Vec<u8>, nodes: &[Node]) -> Result<(), AllocError>
    ensures { OnOk result (out.new.items ≡ out.old.items ++ spec.succs_block nodes.now) }
{
    push(out, b"succs ")?;
    push_number(out, nodes.len() as u64)?;
    push(out, b"\n")?;
    push_node_lines(out, nodes)
}

/// Adds the block that says how many nodes are held.
pub fn push_count_block(out: &mut Vec<u8>, count: u32) -> Result<(), AllocError>
    ensures { OnOk result (out.new.items ≡ out.old.items ++ spec.count_block count) }
{
    push_counted(out, b"held ", count)?;
    push(out, b"\n")
}

/// Adds the block that says whether a node is held.
pub fn push_held_block(out: &mut Vec<u8>, held: bool) -> Result<(), AllocError>
    ensures { OnOk result (out.new.items ≡ out.old.items ++ spec.held_block held) }
{
    if held {
        return push(out, b"held\n");
    }
    return push(out, b"not held\n");
}

/// Adds the block of a clearing that dropped so many nodes.
pub fn push_cleared_block(out: &mut Vec<u8>, dropped: u32) -> Result<(), AllocError>
    ensures { OnOk result (out.new.items ≡ out.old.items ++ spec.cleared_block dropped) }
{
    push_counted(out, b"cleared ", dropped)?;
    push(out, b"\n")
}

/// Adds the block of what is accepted.
pub fn push_accepted(out: &mut Vec<u8>) -> Result<(), AllocError>
    ensures { OnOk result (out.new.items ≡ out.old.items ++ spec.accepted_block) }
{
    push(out, b"ok\n")
}

/// Adds the block of what is refused, for this cause.
pub fn push_refused(out: &mut Vec<u8>, why: &[u8]) -> Result<(), AllocError>
    ensures { OnOk result (out.new.items ≡ out.old.items ++ spec.refused_block why.now) }
{
    push(out, b"refused: ")?;
    push(out, why)?;
    push(out, b"\n")
}

/// Adds the block of a refused edit.
pub fn push_refused_edit(out: &mut Vec<u8>, refusal: &EditRefusal) -> Result<(), AllocError>
    ensures text { OnOk result
        (out.new.items ≡ out.old.items ++ spec.edit_block (Err refusal.now)) }
    ensures memory { OnOk result (refusal.now ≢ EditRefusal.NoMemory) }
{
    push(out, b"refused: ")?;
    push_edit_refusal(out, refusal)?;
    push(out, b"\n")
}

/// Adds the block that says that there is no file of this name.
pub fn push_missing_block(out: &mut Vec<u8>, name: &Label) -> Result<(), AllocError>
    ensures { OnOk result (out.new.items ≡ out.old.items ++ spec.missing_block name.now) }
{
    push(out, b"refused: ")?;
    push_missing(out, name)?;
    push(out, b"\n")
}

/// Adds the block that says that the file of this name is too big.
pub fn push_too_big_block(out: &mut Vec<u8>, name: &Label) -> Result<(), AllocError>
    ensures { OnOk result (out.new.items ≡ out.old.items ++ spec.too_big_block name.now) }
{
    push(out, b"refused: ")?;
    push_too_big(out, name)?;
    push(out, b"\n")
}

/// Adds the block of a file that says no table. Want of memory is handed on: it has no text.
pub fn push_table_block(out: &mut Vec<u8>, refusal: TableRefusal) -> Result<(), AllocError>
    ensures text { OnOk result (out.new.items ≡ out.old.items ++ spec.table_block refusal) }
    ensures memory { OnOk result (refusal ≢ TableRefusal.NoMemory) }
{
    push(out, b"refused: ")?;
    push_table_refusal(out, refusal)?;
    push(out, b"\n")
}

/// Adds paths with commas between them.
fn push_paths(out: &mut Vec<u8>, paths: &[Path]) -> Result<(), AllocError>
    ensures { OnOk result (out.new.items ≡ out.old.items ++ commas (map path_text paths.now)) }
{
    for (i, path) in paths.iter().enumerate() {
        if i > 0 {
            push(out, b", ")?;
        }
        push_path(out, path.as_slice())?;
    }
    Ok(())
}

/// Adds the block of the paths of layers.
pub fn push_order_block(out: &mut Vec<u8>, paths: &[Path]) -> Result<(), AllocError>
    ensures { OnOk result (out.new.items ≡ out.old.items ++ spec.order_block paths.now) }
{
    push(out, b"order ")?;
    push_paths(out, paths)?;
    push(out, b"\n")
}
