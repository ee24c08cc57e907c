//! Trees that are put together by hand, and their texts: a text that was parsed would show only that printing and parsing are inverse.

use crate::values::label;
use mx_list::items::Items;
use mx_list::list::List;
use mx_list::shared::Shared;
use mx_print::formula::{print, print_params};
use mx_syntax::bind::{BindRefusal, bind};
use mx_syntax::expr::{Arm, Expr, SumOp, SumPart};
use mx_syntax::height::{body_height, first_line};
use mx_syntax::locals::{locals_of, names_bound};
use mx_syntax::stmt::{Formula, Param, Params, Stmt};
use mx_value::value::Value;
use std::alloc::Global;
use std::process::Abort;
use std::test::Fail;

/// The list of one item.
fn one<T: Drop>(alloc: Global, item: T) -> Result<List<T>, Fail> {
    let mut items = Vec::new(alloc);
    items.push(item)?;
    Ok(List::from_vec(alloc, items)?)
}

fn n(alloc: Global) -> Result<Expr, Fail> {
    Ok(Expr::Name(label(alloc, b"n")?))
}

/// `n - of`.
fn n_minus(alloc: Global, of: Expr) -> Result<Expr, Fail> {
    let op = SumOp::Minus;
    let rest = one(alloc, SumPart { op, of })?;
    let first = Shared::new(alloc, n(alloc)?)?;
    Ok(Expr::Sum { first, rest })
}

/// `value if n`.
fn if_n(alloc: Global, value: Expr) -> Result<List<Arm>, Fail> {
    let test = n(alloc)?;
    one(alloc, Arm { value, test })
}

/// `n - (n - 1) if n else 1`, which needs parentheses.
fn choice(alloc: Global) -> Result<Expr, Fail> {
    let inner = n_minus(alloc, Expr::Lit(Value::Int(1)))?;
    let arms = if_n(alloc, n_minus(alloc, inner)?)?;
    let last = Shared::new(alloc, Expr::Lit(Value::Int(1)))?;
    Ok(Expr::Cond { arms, last })
}

/// `m = n`.
fn assignment(alloc: Global) -> Result<Stmt, Fail> {
    let name = label(alloc, b"m")?;
    Ok(Stmt::Assign(name, n(alloc)?))
}

/// `m = n` and `return m`.
fn two_statements(alloc: Global) -> Result<List<Stmt>, Fail> {
    let mut body = Vec::new(alloc);
    body.push(assignment(alloc)?)?;
    body.push(Stmt::Return(Some(Expr::Name(label(alloc, b"m")?))))?;
    Ok(List::from_vec(alloc, body)?)
}

/// The formula with the one parameter `n` and these statements.
fn formula(alloc: Global, body: List<Stmt>) -> Result<Formula, Fail> {
    let name = label(alloc, b"n")?;
    let params = one(
        alloc,
        Param {
            name,
            default: None,
        },
    )?;
    Ok(Formula { params, body })
}

/// Whether a formula has this text, so many locals and names bound, this first line and so many lines.
fn is_told(
    alloc: Global,
    formula: &Formula,
    text: &[u8],
    measures: [usize; 4],
) -> Result<bool, Fail> {
    let body = formula.body.as_slice();
    let locals = locals_of(alloc, formula)?.len();
    let bound = names_bound(alloc, body)?.len();
    let told = [
        locals,
        bound,
        first_line(body) as usize,
        body_height(body) as usize,
    ];
    Ok(print(alloc, formula)?.as_slice() == text && told.as_slice() == measures.as_slice())
}

#[test]
fn a_formula_of_one_statement_has_its_text(rt: HostRuntime) -> Result<(), Fail> {
    let body = one(rt.alloc(), Stmt::Return(Some(choice(rt.alloc())?)))?;
    let made = formula(rt.alloc(), body)?;
    assert!(rt;
        is_told(
            rt.alloc(),
            &made,
            b"(n) = n - (n - 1) if n else 1\n",
            [1, 0, 1, 1]
        )?
    );
    Ok(())
}

#[test]
fn a_formula_of_two_statements_has_its_text(rt: HostRuntime) -> Result<(), Fail> {
    let body = two_statements(rt.alloc())?;
    let made = formula(rt.alloc(), body)?;
    let text = b"(n):\n    m = n\n    return m\n".as_slice();
    assert!(rt; is_told(rt.alloc(), &made, text, [2, 1, 2, 2])?);
    Ok(())
}

fn param(alloc: Global, name: &[u8], default: Option<Value>) -> Result<Param, Fail> {
    let name = label(alloc, name)?;
    Ok(Param { name, default })
}

/// `x` and `n=-2`.
fn parameters(alloc: Global) -> Result<List<Param>, Fail> {
    let mut params = Vec::new(alloc);
    params.push(param(alloc, b"x", None)?)?;
    params.push(param(alloc, b"n", Some(Value::Int(-2)))?)?;
    Ok(List::from_vec(alloc, params)?)
}

/// Whether the arguments are too few, or too many.
fn is_wrong_count(alloc: Global, params: &[Param], given: Items<Value>) -> bool {
    matches!(bind(alloc, params, given), Err(BindRefusal::WrongCount))
}

#[test]
fn parameters_have_their_text(rt: HostRuntime) -> Result<(), Fail> {
    let params = parameters(rt.alloc())?;
    let list = Params { params, body: None };
    assert!(rt; print_params(rt.alloc(), &list)?.as_slice() == b"(x, n=-2)\n".as_slice());
    Ok(())
}

#[test]
fn parameters_bind_with_their_defaults(rt: HostRuntime) -> Result<(), Fail> {
    let params = parameters(rt.alloc())?;
    assert!(rt; is_wrong_count(rt.alloc(), params.as_slice(), Items::new(rt.alloc())));
    let given = crate::values::one(rt.alloc(), Value::Int(7))?;
    let Ok(full) = bind(rt.alloc(), params.as_slice(), given) else {
        return Err(Fail::from("not bound"));
    };
    assert!(rt; full.get(0) == Some(&Value::Int(7)) && full.get(1) == Some(&Value::Int(-2)));
    Ok(())
}
