//! The one text of a formula and of a parameter list.
ghost use Rattle.std.specs.Prelude.{◌≡◌, ◌++◌, ◌∷◌, [], Option, length, map, IfOk, OnOk};
ghost use Rattle.mx_print.specs.Sizes.{openings};
ghost use Rattle.mx_print.specs.Texts.{Text, commas};
ghost use Rattle.mx_print.specs.Statements as spec;
ghost use Rattle.mx_print.specs.Statements.{formula_lines, lines_text, one_line, param_text, params_text, returned};

use crate::count::Count;
use crate::expr::push_at;
use crate::nodes::push_value;
use crate::sink::{Sink, push};
use crate::statement::{push_block, push_display};
use mx_syntax::expr::Expr;
use mx_syntax::stmt::{Formula, ItemEntry, Param, Params, Stmt};
use std::alloc::{AllocError, Global};

/// The text of a formula: `(..) = e` and a line end where its body only returns an expression or a
/// display, else `(..):` and the lines of its statements, four spaces for each level.
pub fn print(alloc: Global, formula: &Formula) -> Result<Vec<u8>, AllocError>
    ensures { IfOk result (λ text. text.items ≡ spec.print formula.now) }
{
    let mut out = Vec::new(alloc);
    push_formula(&mut out, formula.params.as_slice(), formula.body.as_slice())?;
    Ok(out)
}

/// The text of a parameter list, with the formula of the items where it has one.
pub fn print_params(alloc: Global, params: &Params) -> Result<Vec<u8>, AllocError>
    ensures { IfOk result (λ text. text.items ≡ spec.print_params params.now) }
{
    let mut out = Vec::new(alloc);
    push_all(&mut out, params)?;
    Ok(out)
}

/// How long the text of a formula is, and how many brackets and indents it may open, without
/// memory for it.
pub fn size(formula: &Formula) -> Result<Count, AllocError>
    ensures len { IfOk result (λ count. count.len ≡ length (spec.print formula.now)) }
    ensures opened { IfOk result (λ count. count.openings ≡ openings (spec.print formula.now)) }
{
    let mut out = Count::none();
    push_formula(&mut out, formula.params.as_slice(), formula.body.as_slice())?;
    Ok(out)
}

/// The same of a parameter list.
pub fn params_size(params: &Params) -> Result<Count, AllocError>
    ensures len { IfOk result (λ count. count.len ≡ length (spec.print_params params.now)) }
    ensures opened { IfOk result
        (λ count. count.openings ≡ openings (spec.print_params params.now)) }
{
    let mut out = Count::none();
    push_all(&mut out, params)?;
    Ok(out)
}

fn push_all<S: Sink>(out: &mut S, params: &Params) -> Result<(), AllocError>
    ensures { OnOk result (S.written out.new ≡ S.written out.old ++ spec.print_params params.now) }
{
    match &params.body {
        Some(body) => push_formula(out, params.params.as_slice(), body.as_slice()),
        None => {
            push_params(out, params.params.as_slice())?;
            push(out, b"\n")
        }
    }
}

fn push_formula<S: Sink>(out: &mut S, params: &[Param], body: &[Stmt]) -> Result<(), AllocError>
    ensures { OnOk result
        (S.written out.new
        ≡ S.written out.old ++ lines_text 0 (formula_lines params.now body.now)) }
{
    push_params(out, params)?;
    match body {
        [Stmt::Return(Some(value))] => push_value_line(out, value),
        [Stmt::ReturnItem(entries)] => push_display_line(out, entries.as_slice()),
        _ => {
            push(out, b":\n")?;
            push_block(out, 0, body)
        }
    }
}

/// Adds the rest of the one line of a formula that only returns an expression.
fn push_value_line<S: Sink>(out: &mut S, value: &Expr) -> Result<(), AllocError>
    ensures { OnOk result
        (S.written out.new ≡ S.written out.old ++ spec.rest_of_line (spec.whole value.now)) }
{
    push(out, b" = ")?;
    push_at(out, 0, value)?;
    push(out, b"\n")
}

/// Adds the rest of the one line of a formula that only returns a display.
fn push_display_line<S: Sink>(out: &mut S, entries: &[ItemEntry]) -> Result<(), AllocError>
    ensures { OnOk result
        (S.written out.new
        ≡ S.written out.old ++ spec.rest_of_line (spec.display_text entries.now)) }
{
    push(out, b" = ")?;
    push_display(out, entries)?;
    push(out, b"\n")
}

fn push_params<S: Sink>(out: &mut S, params: &[Param]) -> Result<(), AllocError>
    ensures { OnOk result (S.written out.new ≡ S.written out.old ++ params_text params.now) }
{
    push(out, b"(")?;
    push_commas(out, params)?;
    push(out, b")")
}

fn push_commas<S: Sink>(out: &mut S, params: &[Param]) -> Result<(), AllocError>
    ensures { OnOk result
        (S.written out.new ≡ S.written out.old ++ commas (map param_text params.now)) }
{
    for (i, param) in params.iter().enumerate() {
        if i > 0 {
            push(out, b", ")?;
        }
        push_param(out, param)?;
    }
    Ok(())
}

fn push_param<S: Sink>(out: &mut S, param: &Param) -> Result<(), AllocError>
    ensures { OnOk result (S.written out.new ≡ S.written out.old ++ param_text param.now) }
{
    push(out, param.name.as_slice())?;
    match &param.default {
        Some(value) => {
            push(out, b"=")?;
            push_value(out, value)
        }
        None => Ok(()),
    }
}
