//! From expressions to instructions, from the last to the first.
ghost use Rattle.std.specs.Prelude.{◌≡◌, ◌+◌, ◌++◌, ◌∷◌, map, length, reverse, option_map, true, false, OnOk, List as Many};
ghost use Rattle.mx_code.specs.declared.action.Instr.{Instr};
ghost use Rattle.mx_code.specs.declared.action.Action.TheVariants as act;
ghost use Rattle.mx_code.specs.Expressions.{at, value_of, part_code, values_code, joined_code, signs_code, signs_of, beside, raised_code, powered_code, further_code, deciding_code, arms_code, compare_action, none_action, chain_code, filter_code, rounds_code, behind_code, trailed_code};
ghost use Rattle.mx_code.specs.Expressions as coded;
ghost use Rattle.mx_code.specs.Parts.{args_code, comparison_code, trailer_code, arm_code, power_code, product_code, sum_code};

use crate::action::{Action, Instr, Local};
use crate::emit::{
    compare_op, product_op, put, put_block, put_name, sign_op, since, sum_op, way_back, with_name,
};
use mx_list::shared::Shared;
use mx_syntax::expr::{
    Args, Arm, Comparison, Expr, PowerPart, ProductPart, Sign, SumPart, Trailer,
};
use mx_syntax::op::Op;
use mx_value::fault::FaultKind;
use mx_value::value::Value;
use std::alloc::{AllocError, Global};

/// The instructions of an expression, which leave what is called where the flag is true, and else a
/// value.
#[cycle(expression)]
pub fn put_part(
    alloc: Global,
    code: &mut Vec<Instr>,
    scope: &[Local],
    line: u32,
    e: &Expr,
    is_called: bool,
) -> Result<(), AllocError>
    ensures { OnOk result
        (reverse code.new.items
        ≡ part_code e.now is_called scope.now line ++ reverse code.old.items) }
{
    match e {
        Expr::Lit(value) => put(code, line, Action::Const(value.copy(alloc)?)),
        Expr::Name(name) => put_name(code, scope, line, name, is_called),
        Expr::Tuple(items) => {
            put(code, line, Action::Tuple(items.len()))?;
            put_values(alloc, code, scope, line, items.as_slice())
        }
        Expr::Cond { arms, last } => {
            let end = code.len();
            put_part(alloc, code, scope, line, last.get(), false)?;
            put_arms(alloc, code, scope, line, arms.as_slice(), end)
        }
        Expr::Or(items) => put_deciding(alloc, code, scope, line, items.as_slice(), true),
        Expr::And(items) => put_deciding(alloc, code, scope, line, items.as_slice(), false),
        Expr::Not { count, of } => {
            put(code, line, Action::Not(*count))?;
            put_part(alloc, code, scope, line, of.get(), false)
        }
        Expr::Compare { first, rest } => {
            put_chain(alloc, code, scope, line, rest.as_slice())?;
            put_part(alloc, code, scope, line, first.get(), false)
        }
        Expr::Sum { first, rest } => {
            put_sum(alloc, code, scope, line, rest.as_slice())?;
            put_part(alloc, code, scope, line, first.get(), false)
        }
        Expr::Product { first, rest } => {
            put_product(alloc, code, scope, line, rest.as_slice())?;
            put_part(alloc, code, scope, line, first.get(), false)
        }
        Expr::Signed { signs, of } => {
            put_signs(code, line, signs.as_slice())?;
            put_part(alloc, code, scope, line, of.get(), false)
        }
        Expr::Power { first, rest } => {
            put_powered(alloc, code, scope, line, rest.as_slice())?;
            put_part(alloc, code, scope, line, first.get(), false)
        }
        Expr::Post { of, trailers } => {
            let trailers = trailers.as_slice();
            put_trailers(alloc, code, scope, line, trailers)?;
            let first = called_before(trailers, is_called);
            put_part(alloc, code, scope, line, of.get(), first)
        }
    }
}

/// Whether a part is called, before what stands behind it.
fn called_before(trailers: &[Trailer], is_called: bool) -> bool
    ensures { result ≡ coded.called_before (map trailer_code trailers.now) is_called }
{
    let [first, ..] = trailers else {
        return is_called;
    };
    match first {
        Trailer::Call(Args::List(_)) => true,
        Trailer::Call(Args::Gen { .. }) => true,
        Trailer::Index(_) => false,
        Trailer::Attr(_) => false,
    }
}

/// The values of parts, from the left.
#[cycle(expression)]
fn put_values(
    alloc: Global,
    code: &mut Vec<Instr>,
    scope: &[Local],
    line: u32,
    items: &[Expr],
) -> Result<(), AllocError>
    ensures { OnOk result
        (reverse code.new.items
        ≡ values_code (map value_of (map part_code items.now)) scope.now line
        ++ reverse code.old.items) }
{
    for i in (0..items.len()).rev() {
        put_part(alloc, code, scope, line, &items[i], false)?;
    }
    Ok(())
}

/// The further parts of a sum.
#[cycle(expression)]
fn put_sum(
    alloc: Global,
    code: &mut Vec<Instr>,
    scope: &[Local],
    line: u32,
    parts: &[SumPart],
) -> Result<(), AllocError>
    ensures { OnOk result
        (reverse code.new.items
        ≡ joined_code (map sum_code parts.now) scope.now line ++ reverse code.old.items) }
{
    for i in (0..parts.len()).rev() {
        let part = &parts[i];
        put(code, line, Action::Binary(sum_op(part.op)))?;
        put_part(alloc, code, scope, line, &part.of, false)?;
    }
    Ok(())
}

/// The further parts of a product.
#[cycle(expression)]
fn put_product(
    alloc: Global,
    code: &mut Vec<Instr>,
    scope: &[Local],
    line: u32,
    parts: &[ProductPart],
) -> Result<(), AllocError>
    ensures { OnOk result
        (reverse code.new.items
        ≡ joined_code (map product_code parts.now) scope.now line ++ reverse code.old.items) }
{
    for i in (0..parts.len()).rev() {
        let part = &parts[i];
        put(code, line, Action::Binary(product_op(part.op)))?;
        put_part(alloc, code, scope, line, &part.of, false)?;
    }
    Ok(())
}

/// Signs, of which the last one applies first.
fn put_signs(code: &mut Vec<Instr>, line: u32, signs: &[Sign]) -> Result<(), AllocError>
    ensures { OnOk result
        (reverse code.new.items ≡ signs_code signs.now line ++ reverse code.old.items) }
{
    for sign in signs {
        put(code, line, Action::Unary(sign_op(*sign)))?;
    }
    Ok(())
}

/// The further parts of a power.
#[cycle(expression)]
fn put_powered(
    alloc: Global,
    code: &mut Vec<Instr>,
    scope: &[Local],
    line: u32,
    parts: &[PowerPart],
) -> Result<(), AllocError>
    ensures { OnOk result
        (reverse code.new.items
        ≡ powered_code (map power_code parts.now) scope.now line ++ reverse code.old.items) }
{
    put_raised(code, line, parts)?;
    for i in (0..parts.len()).rev() {
        put_part(alloc, code, scope, line, &parts[i].of, false)?;
    }
    Ok(())
}

/// What joins the parts of a power, from the right.
fn put_raised(code: &mut Vec<Instr>, line: u32, parts: &[PowerPart]) -> Result<(), AllocError>
    ensures { OnOk result
        (reverse code.new.items
        ≡ raised_code (map signs_of (map power_code parts.now)) line ++ reverse code.old.items) }
{
    for i in 0..parts.len() {
        let part = &parts[i];
        put(code, line, Action::Binary(Op::Pow))?;
        put_signs(code, line, part.signs.as_slice())?;
    }
    Ok(())
}

/// The comparisons of a chain.
#[cycle(expression)]
fn put_chain(
    alloc: Global,
    code: &mut Vec<Instr>,
    scope: &[Local],
    line: u32,
    comparisons: &[Comparison],
) -> Result<(), AllocError>
    ensures { OnOk result
        (reverse code.new.items
        ≡ chain_code (map comparison_code comparisons.now) scope.now line
        ++ reverse code.old.items) }
{
    if comparisons.is_empty() {
        put(code, line, Action::Const(Value::Flag(true)))?;
        return put(code, line, Action::Pop);
    }
    let end = code.len();
    for i in (0..comparisons.len()).rev() {
        let behind = since(code, end);
        match &comparisons[i] {
            Comparison::Op(op, right) => {
                put(code, line, comparing(compare_op(*op), behind))?;
                put_part(alloc, code, scope, line, right, false)?;
            }
            Comparison::IsNone => put(code, line, being_none(true, behind))?,
            Comparison::IsNotNone => put(code, line, being_none(false, behind))?,
        }
    }
    Ok(())
}

/// A comparison with so many instructions of its chain behind it.
fn comparing(op: Op, behind: usize) -> Action
    ensures { result ≡ compare_action op behind }
{
    if behind == 0 {
        Action::Compare(op)
    } else {
        Action::Chain(op, behind)
    }
}

/// Whether a value is None or is not, with so many instructions of its chain behind it.
fn being_none(asked: bool, behind: usize) -> Action
    ensures { result ≡ none_action asked behind }
{
    if behind == 0 {
        Action::IsNone(asked)
    } else {
        Action::ChainNone(asked, behind)
    }
}

/// The parts of an `or`, where the flag is true, or of an `and`.
#[cycle(expression)]
fn put_deciding(
    alloc: Global,
    code: &mut Vec<Instr>,
    scope: &[Local],
    line: u32,
    parts: &[Expr],
    decides: bool,
) -> Result<(), AllocError>
    ensures { OnOk result
        (reverse code.new.items
        ≡ deciding_code decides (map value_of (map part_code parts.now)) scope.now line
        ++ reverse code.old.items) }
{
    let [first, ..] = parts else {
        return put(code, line, Action::Fail(FaultKind::TypeMismatch));
    };
    let end = code.len();
    for i in (1..parts.len()).rev() {
        put_part(alloc, code, scope, line, &parts[i], false)?;
        let passed = since(code, end);
        put(code, line, Action::Decide(decides, passed))?;
    }
    put_part(alloc, code, scope, line, first, false)
}

/// The arms of a conditional, before its last part, which was put since there were so many instructions.
#[cycle(expression)]
fn put_arms(
    alloc: Global,
    code: &mut Vec<Instr>,
    scope: &[Local],
    line: u32,
    arms: &[Arm],
    end: usize,
) -> Result<(), AllocError>
    ensures { (last below : Many Instr) → reverse code.old.items ≡ last ++ below → length below ≡ end →
        OnOk result (reverse code.new.items ≡ arms_code (map arm_code arms.now) (λ scope line. last) scope.now line ++ below) }
{
    for i in (0..arms.len()).rev() {
        let arm = &arms[i];
        let below = code.len();
        let other = since(code, end);
        put(code, line, Action::Jump(other))?;
        put_part(alloc, code, scope, line, &arm.value, false)?;
        let given = since(code, below);
        put(code, line, Action::JumpUnless(given))?;
        put_part(alloc, code, scope, line, &arm.test, false)?;
    }
    Ok(())
}

/// What stands behind a part.
#[cycle(expression)]
fn put_trailers(
    alloc: Global,
    code: &mut Vec<Instr>,
    scope: &[Local],
    line: u32,
    trailers: &[Trailer],
) -> Result<(), AllocError>
    ensures { OnOk result
        (reverse code.new.items
        ≡ trailed_code (map trailer_code trailers.now) scope.now line ++ reverse code.old.items) }
{
    for i in (0..trailers.len()).rev() {
        match &trailers[i] {
            Trailer::Call(args) => put_args(alloc, code, scope, line, args)?,
            Trailer::Index(items) => {
                put(code, line, Action::Index(items.len()))?;
                put_values(alloc, code, scope, line, items.as_slice())?;
            }
            Trailer::Attr(name) => put(code, line, Action::Attr(name.copy()?))?,
        }
    }
    Ok(())
}

/// The arguments of a call, and the call.
#[cycle(expression)]
fn put_args(
    alloc: Global,
    code: &mut Vec<Instr>,
    scope: &[Local],
    line: u32,
    args: &Args,
) -> Result<(), AllocError>
    ensures { OnOk result
        (reverse code.new.items
        ≡ behind_code (args_code args.now) scope.now line ++ reverse code.old.items) }
{
    match args {
        Args::List(items) => {
            put(code, line, Action::Call(items.len()))?;
            put_values(alloc, code, scope, line, items.as_slice())
        }
        Args::Gen {
            element,
            name,
            over,
            test,
        } => {
            let mut item = Vec::new(alloc);
            let inner = with_name(alloc, scope, name)?;
            put_part(
                alloc,
                &mut item,
                inner.as_slice(),
                line,
                element.get(),
                false,
            )?;
            put_filter(alloc, &mut item, inner.as_slice(), line, test)?;
            put(code, line, Action::Call(1))?;
            put(code, line, Action::Made)?;
            let place = scope.len();
            put_collected(code, line, place, item)?;
            put(code, line, Action::Iterate)?;
            put_part(alloc, code, scope, line, over.get(), false)?;
            put(code, line, Action::Gather)
        }
    }
}

/// The rounds of a generator: for each item these instructions, which were put into a vector of their
/// own, and then its value is collected.
fn put_collected(
    code: &mut Vec<Instr>,
    line: u32,
    place: usize,
    item: Vec<Instr>,
) -> Result<(), AllocError>
    ensures { OnOk result
        (reverse code.new.items
        ≡ rounds_code line place (reverse item.items) (act.Collect (length item.items + 1))
        ++ reverse code.old.items) }
{
    let end = code.len();
    let back = way_back(&item)?;
    put(code, line, Action::Collect(back))?;
    put_block(code, item)?;
    let passed = since(code, end);
    put(code, line, Action::NextItem(place, passed))
}

/// The test of a generator.
#[cycle(expression)]
fn put_filter(
    alloc: Global,
    code: &mut Vec<Instr>,
    scope: &[Local],
    line: u32,
    test: &Option<Shared<Expr>>,
) -> Result<(), AllocError>
    ensures { OnOk result
        (reverse code.new.items
        ≡ filter_code (option_map value_of (option_map part_code test.now)) scope.now line
        ++ reverse code.old.items) }
{
    let Some(test) = test else {
        return Ok(());
    };
    let mut block = Vec::new(alloc);
    put_part(alloc, &mut block, scope, line, test.get(), false)?;
    put(code, line, Action::BackUnless(way_back(&block)?))?;
    put_block(code, block)
}
