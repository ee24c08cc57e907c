//! The one text of an expression, added behind the bytes of a buffer.
ghost use Rattle.std.specs.Prelude.{◌≡◌, ◌++◌, map, replicate, codes, OnOk};
ghost use Rattle.mx_syntax.specs.Lists.{flat};
ghost use Rattle.mx_print.specs.Texts.{separated};
ghost use Rattle.mx_print.specs.Values.{tuple_text};
ghost use Rattle.mx_print.specs.Expressions as spec;
ghost use Rattle.mx_print.specs.Expressions.{all_at, at, arm_text, args_text, comparison_text, generator_test_text, power_part_text, printed, product_part_text, sign_byte, sum_part_text, trailer_text};

use crate::nodes::push_value;
use crate::sink::{Sink, push};
use mx_list::shared::Shared;
use mx_syntax::expr::{
    Args, Arm, CmpOp, Comparison, Expr, PowerPart, ProductOp, ProductPart, Sign, SumOp, SumPart,
    Trailer,
};
use mx_value::value::Value;
use std::alloc::AllocError;

/// The rule of the grammar that the expression's form belongs to: 0 for a conditional, 10 for an
/// atom.
fn level(expr: &Expr) -> u8
    ensures { result ≡ (printed expr.now).level }
{
    match expr {
        Expr::Cond { .. } => 0,
        Expr::Or(_) => 1,
        Expr::And(_) => 2,
        Expr::Not { .. } => 3,
        Expr::Compare { .. } => 4,
        Expr::Sum { .. } => 5,
        Expr::Product { .. } => 6,
        Expr::Signed { .. } => 7,
        Expr::Power { .. } => 8,
        Expr::Post { .. } => 9,
        Expr::Lit(_) => 10,
        Expr::Name(_) => 10,
        Expr::Tuple(_) => 10,
    }
}

/// Adds an expression where the grammar asks for the rule `least`: in parentheses exactly where its
/// form belongs to an earlier rule.
#[cycle(print)]
pub(crate) fn push_at<S: Sink>(out: &mut S, least: u8, expr: &Expr) -> Result<(), AllocError>
    ensures { OnOk result (S.written out.new ≡ S.written out.old ++ at least (printed expr.now)) }
{
    if level(expr) < least {
        push(out, b"(")?;
        push_expr(out, expr)?;
        push(out, b")")
    } else {
        push_expr(out, expr)
    }
}

#[cycle(print)]
fn push_expr<S: Sink>(out: &mut S, expr: &Expr) -> Result<(), AllocError>
    ensures { OnOk result (S.written out.new ≡ S.written out.old ++ (printed expr.now).text) }
{
    match expr {
        Expr::Lit(value) => push_value(out, value),
        Expr::Name(name) => push(out, name.as_slice()),
        Expr::Tuple(items) => push_tuple(out, items.as_slice()),
        Expr::Cond { arms, last } => {
            push_arms(out, arms.as_slice())?;
            push_at(out, 1, last.get())
        }
        Expr::Or(parts) => push_separated(out, b" or ", 2, parts.as_slice()),
        Expr::And(parts) => push_separated(out, b" and ", 3, parts.as_slice()),
        Expr::Not { count, of } => {
            push_nots(out, *count)?;
            push_at(out, 4, of.get())
        }
        Expr::Compare { first, rest } => {
            push_at(out, 5, first.get())?;
            push_comparisons(out, rest.as_slice())
        }
        Expr::Sum { first, rest } => {
            push_at(out, 6, first.get())?;
            push_sum_parts(out, rest.as_slice())
        }
        Expr::Product { first, rest } => {
            push_at(out, 7, first.get())?;
            push_product_parts(out, rest.as_slice())
        }
        Expr::Signed { signs, of } => {
            push_signs(out, signs.as_slice())?;
            push_at(out, 8, of.get())
        }
        Expr::Power { first, rest } => {
            push_at(out, 9, first.get())?;
            push_power_parts(out, rest.as_slice())
        }
        Expr::Post { of, trailers } => {
            push_at(out, 10, of.get())?;
            push_gap(out, of.get(), trailers.as_slice())?;
            push_trailers(out, trailers.as_slice())
        }
    }
}

/// Adds expressions with a text between each two.
#[cycle(print)]
fn push_separated<S: Sink>(
    out: &mut S,
    separator: &[u8],
    least: u8,
    items: &[Expr],
) -> Result<(), AllocError>
    ensures { OnOk result
        (S.written out.new
        ≡ S.written out.old ++ separated separator.now (all_at least (map printed items.now))) }
{
    for (i, item) in items.iter().enumerate() {
        if i > 0 {
            push(out, separator)?;
        }
        push_at(out, least, item)?;
    }
    Ok(())
}

/// Adds a tuple. One of a single item has a comma behind it.
#[cycle(print)]
fn push_tuple<S: Sink>(out: &mut S, items: &[Expr]) -> Result<(), AllocError>
    ensures { OnOk result
        (S.written out.new ≡ S.written out.old ++ tuple_text (all_at 0 (map printed items.now))) }
{
    push(out, b"(")?;
    push_separated(out, b", ", 0, items)?;
    if items.len() == 1 {
        push(out, b",")?;
    }
    push(out, b")")
}

#[cycle(print)]
fn push_arms<S: Sink>(out: &mut S, arms: &[Arm]) -> Result<(), AllocError>
    ensures { OnOk result (S.written out.new ≡ S.written out.old ++ flat (map arm_text arms.now)) }
{
    for arm in arms {
        push_arm(out, arm)?;
    }
    Ok(())
}

#[cycle(print)]
fn push_arm<S: Sink>(out: &mut S, arm: &Arm) -> Result<(), AllocError>
    ensures { OnOk result (S.written out.new ≡ S.written out.old ++ arm_text arm.now) }
{
    push_at(out, 1, &arm.value)?;
    push(out, b" if ")?;
    push_at(out, 1, &arm.test)?;
    push(out, b" else ")
}

fn push_nots<S: Sink>(out: &mut S, count: u32) -> Result<(), AllocError>
    ensures { OnOk result
        (S.written out.new ≡ S.written out.old ++ flat (replicate count (codes "not "))) }
{
    for _ in 0..count {
        push(out, b"not ")?;
    }
    Ok(())
}

fn cmp_text(op: CmpOp) -> &'static [u8]
    ensures { result.now ≡ spec.cmp_text op }
{
    match op {
        CmpOp::Lt => b"<",
        CmpOp::Le => b"<=",
        CmpOp::Gt => b">",
        CmpOp::Ge => b">=",
        CmpOp::Eq => b"==",
        CmpOp::Ne => b"!=",
        CmpOp::In => b"in",
        CmpOp::NotIn => b"not in",
    }
}

#[cycle(print)]
fn push_comparisons<S: Sink>(out: &mut S, parts: &[Comparison]) -> Result<(), AllocError>
    ensures { OnOk result
        (S.written out.new ≡ S.written out.old ++ flat (map comparison_text parts.now)) }
{
    for part in parts {
        push_comparison(out, part)?;
    }
    Ok(())
}

#[cycle(print)]
fn push_comparison<S: Sink>(out: &mut S, part: &Comparison) -> Result<(), AllocError>
    ensures { OnOk result (S.written out.new ≡ S.written out.old ++ comparison_text part.now) }
{
    match part {
        Comparison::Op(op, of) => {
            push_spaced(out, cmp_text(*op))?;
            push_at(out, 5, of)
        }
        Comparison::IsNone => push(out, b" is None"),
        Comparison::IsNotNone => push(out, b" is not None"),
    }
}

/// Adds a text with a space on each side.
fn push_spaced<S: Sink>(out: &mut S, text: &[u8]) -> Result<(), AllocError>
    ensures { OnOk result (S.written out.new ≡ S.written out.old ++ spec.spaced text.now) }
{
    push(out, b" ")?;
    push(out, text)?;
    push(out, b" ")
}

fn sum_text(op: SumOp) -> &'static [u8]
    ensures { result.now ≡ spec.sum_text op }
{
    match op {
        SumOp::Plus => b"+",
        SumOp::Minus => b"-",
    }
}

#[cycle(print)]
fn push_sum_parts<S: Sink>(out: &mut S, parts: &[SumPart]) -> Result<(), AllocError>
    ensures { OnOk result
        (S.written out.new ≡ S.written out.old ++ flat (map sum_part_text parts.now)) }
{
    for part in parts {
        push_sum_part(out, part)?;
    }
    Ok(())
}

#[cycle(print)]
fn push_sum_part<S: Sink>(out: &mut S, part: &SumPart) -> Result<(), AllocError>
    ensures { OnOk result (S.written out.new ≡ S.written out.old ++ sum_part_text part.now) }
{
    push_spaced(out, sum_text(part.op))?;
    push_at(out, 6, &part.of)
}

fn product_text(op: ProductOp) -> &'static [u8]
    ensures { result.now ≡ spec.product_text op }
{
    match op {
        ProductOp::Times => b"*",
        ProductOp::Over => b"/",
        ProductOp::Floor => b"//",
        ProductOp::Rem => b"%",
    }
}

#[cycle(print)]
fn push_product_parts<S: Sink>(out: &mut S, parts: &[ProductPart]) -> Result<(), AllocError>
    ensures { OnOk result
        (S.written out.new ≡ S.written out.old ++ flat (map product_part_text parts.now)) }
{
    for part in parts {
        push_product_part(out, part)?;
    }
    Ok(())
}

#[cycle(print)]
fn push_product_part<S: Sink>(out: &mut S, part: &ProductPart) -> Result<(), AllocError>
    ensures { OnOk result (S.written out.new ≡ S.written out.old ++ product_part_text part.now) }
{
    push_spaced(out, product_text(part.op))?;
    push_at(out, 7, &part.of)
}

fn sign_byte(sign: Sign) -> u8
    ensures { result ≡ spec.sign_byte sign }
{
    match sign {
        Sign::Plus => b'+',
        Sign::Minus => b'-',
    }
}

/// Adds signs, which stand directly before their operand.
fn push_signs<S: Sink>(out: &mut S, signs: &[Sign]) -> Result<(), AllocError>
    ensures { OnOk result (S.written out.new ≡ S.written out.old ++ map sign_byte signs.now) }
{
    for sign in signs {
        push(out, &[sign_byte(*sign)])?;
    }
    Ok(())
}

#[cycle(print)]
fn push_power_parts<S: Sink>(out: &mut S, parts: &[PowerPart]) -> Result<(), AllocError>
    ensures { OnOk result
        (S.written out.new ≡ S.written out.old ++ flat (map power_part_text parts.now)) }
{
    for part in parts {
        push_power_part(out, part)?;
    }
    Ok(())
}

#[cycle(print)]
fn push_power_part<S: Sink>(out: &mut S, part: &PowerPart) -> Result<(), AllocError>
    ensures { OnOk result (S.written out.new ≡ S.written out.old ++ power_part_text part.now) }
{
    push(out, b" ** ")?;
    push_signs(out, part.signs.as_slice())?;
    push_at(out, 9, &part.of)
}

/// Adds a space between a number and the dot of an attribute.
fn push_gap<S: Sink>(out: &mut S, of: &Expr, trailers: &[Trailer]) -> Result<(), AllocError>
    ensures { OnOk result
        (S.written out.new
        ≡ S.written out.old ++ spec.gap (printed of.now) (map trailer_text trailers.now)) }
{
    if !is_number(of) {
        return Ok(());
    }
    if !begins_with_dot(trailers) {
        return Ok(());
    }
    return push(out, b" ");
}

fn is_number(expr: &Expr) -> bool
    ensures { result ≡ (printed expr.now).number }
{
    match expr {
        Expr::Lit(Value::Int(_)) => true,
        Expr::Lit(Value::Fix(_)) => true,
        _ => false,
    }
}

fn begins_with_dot(trailers: &[Trailer]) -> bool
    ensures { result ≡ spec.begins_with_dot (map trailer_text trailers.now) }
{
    match trailers {
        [Trailer::Attr(_), ..] => true,
        _ => false,
    }
}

#[cycle(print)]
fn push_trailers<S: Sink>(out: &mut S, trailers: &[Trailer]) -> Result<(), AllocError>
    ensures { OnOk result
        (S.written out.new ≡ S.written out.old ++ flat (map trailer_text trailers.now)) }
{
    for trailer in trailers {
        push_trailer(out, trailer)?;
    }
    Ok(())
}

#[cycle(print)]
fn push_trailer<S: Sink>(out: &mut S, trailer: &Trailer) -> Result<(), AllocError>
    ensures { OnOk result (S.written out.new ≡ S.written out.old ++ trailer_text trailer.now) }
{
    match trailer {
        Trailer::Call(args) => {
            push(out, b"(")?;
            push_args(out, args)?;
            push(out, b")")
        }
        Trailer::Index(items) => {
            push(out, b"[")?;
            push_separated(out, b", ", 0, items.as_slice())?;
            push(out, b"]")
        }
        Trailer::Attr(name) => {
            push(out, b".")?;
            push(out, name.as_slice())
        }
    }
}

#[cycle(print)]
fn push_args<S: Sink>(out: &mut S, args: &Args) -> Result<(), AllocError>
    ensures { OnOk result (S.written out.new ≡ S.written out.old ++ args_text args.now) }
{
    match args {
        Args::List(items) => push_separated(out, b", ", 0, items.as_slice()),
        Args::Gen {
            element,
            name,
            over,
            test,
        } => {
            push_at(out, 0, element.get())?;
            push(out, b" for ")?;
            push(out, name.as_slice())?;
            push(out, b" in ")?;
            push_at(out, 1, over.get())?;
            push_test(out, test)
        }
    }
}

/// Adds the test of a generator, where it has one.
#[cycle(print)]
fn push_test<S: Sink>(out: &mut S, test: &Option<Shared<Expr>>) -> Result<(), AllocError>
    ensures { OnOk result (S.written out.new ≡ S.written out.old ++ generator_test_text test.now) }
{
    match test {
        Some(test) => {
            push(out, b" if ")?;
            push_at(out, 1, test.get())
        }
        None => Ok(()),
    }
}
