//! The lines of statements, added behind the bytes of a buffer.
ghost use Rattle.std.specs.Prelude.{◌≡◌, ◌++◌, ◌∷◌, [], map, replicate, codes, OnOk};
ghost use Rattle.mx_syntax.specs.Lists.{flat};
ghost use Rattle.mx_print.specs.Texts.{commas};
ghost use Rattle.mx_print.specs.Statements as spec;
ghost use Rattle.mx_print.specs.Statements.{arm_lines, block, body_lines, display_text, entry_text, front, if_lines, line_text, lines_text, margin, ref_text, return_text, stmt_lines};

use crate::expr::push_at;
use crate::nodes::push_quoted;
use crate::sink::{Sink, push};
use mx_syntax::expr::Expr;
use mx_syntax::stmt::{ArithOp, IfArm, ItemEntry, Stmt};
use mx_value::label::Label;
use std::alloc::AllocError;

/// Adds the display of an item.
pub(crate) fn push_display<S: Sink>(out: &mut S, entries: &[ItemEntry]) -> Result<(), AllocError>
    ensures { OnOk result (S.written out.new ≡ S.written out.old ++ display_text entries.now) }
{
    push(out, b"{")?;
    push_entries(out, entries)?;
    push(out, b"}")
}

fn push_entries<S: Sink>(out: &mut S, entries: &[ItemEntry]) -> Result<(), AllocError>
    ensures { OnOk result
        (S.written out.new ≡ S.written out.old ++ commas (map entry_text entries.now)) }
{
    for (i, entry) in entries.iter().enumerate() {
        if i > 0 {
            push(out, b", ")?;
        }
        push_entry(out, entry)?;
    }
    Ok(())
}

fn push_entry<S: Sink>(out: &mut S, entry: &ItemEntry) -> Result<(), AllocError>
    ensures { OnOk result (S.written out.new ≡ S.written out.old ++ entry_text entry.now) }
{
    match entry {
        ItemEntry::Refs(refs) => {
            push(out, b"\"refs\": {")?;
            push_refs(out, refs.as_slice())?;
            push(out, b"}")
        }
        ItemEntry::Base(expr) => {
            push(out, b"\"base\": ")?;
            push_at(out, 0, expr)
        }
    }
}

fn push_refs<S: Sink>(out: &mut S, refs: &[(Label, Expr)]) -> Result<(), AllocError>
    ensures { OnOk result
        (S.written out.new ≡ S.written out.old ++ commas (map ref_text refs.now)) }
{
    for (i, reference) in refs.iter().enumerate() {
        if i > 0 {
            push(out, b", ")?;
        }
        push_ref(out, reference)?;
    }
    Ok(())
}

fn push_ref<S: Sink>(out: &mut S, reference: &(Label, Expr)) -> Result<(), AllocError>
    ensures { OnOk result (S.written out.new ≡ S.written out.old ++ ref_text reference.now) }
{
    push_quoted(out, reference.0.as_slice())?;
    push(out, b": ")?;
    push_at(out, 0, &reference.1)
}

/// Adds four spaces for each level.
fn push_margin<S: Sink>(out: &mut S, depth: usize) -> Result<(), AllocError>
    ensures { OnOk result (S.written out.new ≡ S.written out.old ++ margin depth) }
{
    for _ in 0..depth {
        push(out, b"    ")?;
    }
    Ok(())
}

/// Adds a line.
fn push_line<S: Sink>(out: &mut S, depth: usize, line: &[u8]) -> Result<(), AllocError>
    ensures { OnOk result (S.written out.new ≡ S.written out.old ++ line_text depth line.now) }
{
    push_margin(out, depth)?;
    push(out, line)?;
    push(out, b"\n")
}

fn push_return<S: Sink>(out: &mut S, depth: usize, value: &Option<Expr>) -> Result<(), AllocError>
    ensures { OnOk result
        (S.written out.new ≡ S.written out.old ++ line_text depth (return_text value.now)) }
{
    match value {
        None => push_line(out, depth, b"return"),
        Some(expr) => {
            push_margin(out, depth)?;
            push(out, b"return ")?;
            push_at(out, 0, expr)?;
            push(out, b"\n")
        }
    }
}

fn arith_text(op: ArithOp) -> &'static [u8]
    ensures { result.now ≡ spec.arith_text op }
{
    match op {
        ArithOp::Add => b" += ",
        ArithOp::Sub => b" -= ",
        ArithOp::Mul => b" *= ",
    }
}

fn push_return_item<S: Sink>(
    out: &mut S,
    depth: usize,
    entries: &[ItemEntry],
) -> Result<(), AllocError>
    ensures { OnOk result
        (S.written out.new
        ≡ S.written out.old ++ line_text depth (codes "return " ++ display_text entries.now)) }
{
    push_margin(out, depth)?;
    push(out, b"return ")?;
    push_display(out, entries)?;
    push(out, b"\n")
}

fn push_assign<S: Sink>(
    out: &mut S,
    depth: usize,
    name: &Label,
    value: &Expr,
) -> Result<(), AllocError>
    ensures { OnOk result
        (S.written out.new
        ≡ S.written out.old ++ line_text depth (spec.assign_text name.now value.now)) }
{
    push_margin(out, depth)?;
    push(out, name.as_slice())?;
    push(out, b" = ")?;
    push_at(out, 0, value)?;
    push(out, b"\n")
}

fn push_change<S: Sink>(
    out: &mut S,
    depth: usize,
    name: &Label,
    op: ArithOp,
    value: &Expr,
) -> Result<(), AllocError>
    ensures { OnOk result
        (S.written out.new
        ≡ S.written out.old ++ line_text depth (spec.change_text name.now op value.now)) }
{
    push_margin(out, depth)?;
    push(out, name.as_slice())?;
    push(out, arith_text(op))?;
    push_at(out, 0, value)?;
    push(out, b"\n")
}

/// Adds the first line of a `for`.
fn push_for<S: Sink>(out: &mut S, depth: usize, name: &Label, over: &Expr) -> Result<(), AllocError>
    ensures { OnOk result
        (S.written out.new
        ≡ S.written out.old ++ line_text depth (spec.for_text name.now over.now)) }
{
    push_margin(out, depth)?;
    push(out, b"for ")?;
    push(out, name.as_slice())?;
    push(out, b" in ")?;
    push_at(out, 0, over)?;
    push(out, b":")?;
    push(out, b"\n")
}

/// Adds the lines of a statement that stands so many levels in.
#[cycle(statements)]
fn push_stmt<S: Sink>(out: &mut S, depth: usize, stmt: &Stmt) -> Result<(), AllocError>
    ensures { OnOk result
        (S.written out.new ≡ S.written out.old ++ lines_text depth (stmt_lines stmt.now)) }
{
    match stmt {
        Stmt::Pass => push_line(out, depth, b"pass"),
        Stmt::Return(value) => push_return(out, depth, value),
        Stmt::ReturnItem(entries) => push_return_item(out, depth, entries.as_slice()),
        Stmt::Assign(name, value) => push_assign(out, depth, name, value),
        Stmt::Change(name, op, value) => push_change(out, depth, name, *op, value),
        Stmt::If { arms, other } => match other {
            Some(body) => {
                push_arms(out, depth, arms.as_slice())?;
                push_else(out, depth, body.as_slice())
            }
            None => push_arms(out, depth, arms.as_slice()),
        },
        Stmt::For { name, over, body } => {
            push_for(out, depth, name, over)?;
            push_block(out, depth, body.as_slice())
        }
    }
}

/// Adds the statements of a body that stands so many levels in.
#[cycle(statements)]
fn push_body<S: Sink>(out: &mut S, depth: usize, body: &[Stmt]) -> Result<(), AllocError>
    ensures { OnOk result
        (S.written out.new ≡ S.written out.old ++ lines_text depth (body_lines body.now)) }
{
    for stmt in body {
        push_stmt(out, depth, stmt)?;
    }
    Ok(())
}

/// Adds the statements of a body one level further in. More levels than a usize counts have no
/// room in memory.
#[cycle(statements)]
pub(crate) fn push_block<S: Sink>(
    out: &mut S,
    depth: usize,
    body: &[Stmt],
) -> Result<(), AllocError>
    ensures { OnOk result
        (S.written out.new
        ≡ S.written out.old ++ lines_text depth (block (map stmt_lines body.now))) }
{
    let Some(deeper) = depth.checked_add(1) else {
        return Err(AllocError);
    };
    return push_body(out, deeper, body);
}

/// Adds the arms of an `if`.
#[cycle(statements)]
fn push_arms<S: Sink>(out: &mut S, depth: usize, arms: &[IfArm]) -> Result<(), AllocError>
    ensures { OnOk result
        (S.written out.new
        ≡ S.written out.old ++ lines_text depth (if_lines (map arm_lines arms.now))) }
{
    for (i, arm) in arms.iter().enumerate() {
        push_arm(out, depth, i == 0, arm)?;
    }
    Ok(())
}

#[cycle(statements)]
fn push_arm<S: Sink>(out: &mut S, depth: usize, first: bool, arm: &IfArm) -> Result<(), AllocError>
    ensures { OnOk result
        (S.written out.new
        ≡ S.written out.old ++ lines_text depth (front (spec.arm_word first) (arm_lines arm.now))) }
{
    push_margin(out, depth)?;
    push(out, arm_word(first))?;
    push_at(out, 0, &arm.test)?;
    push(out, b":\n")?;
    push_block(out, depth, arm.body.as_slice())
}

fn arm_word(first: bool) -> &'static [u8]
    ensures { result.now ≡ spec.arm_word first }
{
    if first { b"if " } else { b"elif " }
}

/// Adds the `else` of an `if`.
#[cycle(statements)]
fn push_else<S: Sink>(out: &mut S, depth: usize, body: &[Stmt]) -> Result<(), AllocError>
    ensures { OnOk result
        (S.written out.new
        ≡ S.written out.old ++ lines_text depth (codes "else:" ∷ block (map stmt_lines body.now))) }
{
    push_line(out, depth, b"else:")?;
    push_block(out, depth, body)
}
