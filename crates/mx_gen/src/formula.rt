//! The formulas of the generated model, as trees.
ghost use Rattle.std.specs.Prelude.{◌≡◌, pos, codes, IfOk};
ghost use Rattle.mx_gen.specs.Formulas as spec;

use mx_list::list::List;
use mx_list::shared::Shared;
use mx_syntax::expr::{
    Args, Arm, CmpOp, Comparison, Expr, ProductOp, ProductPart, SumOp, SumPart, Trailer,
};
use mx_syntax::stmt::{Formula, Param, Stmt};
use mx_value::label::Label;
use mx_value::value::Value;
use std::alloc::{AllocError, Global};

/// A label of these bytes, which are printable.
pub fn label(alloc: Global, bytes: &[u8]) -> Result<Label, AllocError>
    ensures { IfOk result (λ label. label ≡ bytes.now) }
{
    match Label::new(alloc, bytes) {
        Ok(label) => Ok(label),
        Err(_) => Err(AllocError),
    }
}

fn name(alloc: Global, bytes: &[u8]) -> Result<Expr, AllocError>
    ensures { IfOk result (λ e. e ≡ spec.name bytes.now) }
{
    Ok(Expr::Name(label(alloc, bytes)?))
}

/// `NAME(argument)`.
fn call(alloc: Global, bytes: &[u8], argument: Expr) -> Result<Expr, AllocError>
    ensures { IfOk result (λ e. e ≡ spec.call bytes.now argument) }
{
    let arguments = List::from_vec(alloc, vec![in alloc; argument]?)?;
    let trailers = vec![in alloc; Trailer::Call(Args::List(arguments))]?;
    Ok(Expr::Post {
        of: Shared::new(alloc, name(alloc, bytes)?)?,
        trailers: List::from_vec(alloc, trailers)?,
    })
}

/// A sum of two parts.
fn sum(alloc: Global, first: Expr, op: SumOp, of: Expr) -> Result<Expr, AllocError>
    ensures { IfOk result (λ e. e ≡ spec.sum first op of) }
{
    let rest = vec![in alloc; SumPart { op, of }]?;
    Ok(Expr::Sum {
        first: Shared::new(alloc, first)?,
        rest: List::from_vec(alloc, rest)?,
    })
}

/// `t - 1`.
fn month_before(alloc: Global) -> Result<Expr, AllocError>
    ensures { IfOk result (λ e. e ≡ spec.month_before) }
{
    let t = name(alloc, b"t")?;
    sum(alloc, t, SumOp::Minus, Expr::Lit(Value::Int(1)))
}

/// `f(t - 1) + g(t - 1)`.
fn both_before(alloc: Global) -> Result<Expr, AllocError>
    ensures { IfOk result (λ e. e ≡ spec.both_before) }
{
    let f = call(alloc, b"f", month_before(alloc)?)?;
    let g = call(alloc, b"g", month_before(alloc)?)?;
    sum(alloc, f, SumOp::Plus, g)
}

/// `t <= 0`.
fn at_start(alloc: Global) -> Result<Expr, AllocError>
    ensures { IfOk result (λ e. e ≡ spec.at_start) }
{
    let rest = vec![in alloc; Comparison::Op(CmpOp::Le, Expr::Lit(Value::Int(0)))]?;
    Ok(Expr::Compare {
        first: Shared::new(alloc, name(alloc, b"t")?)?,
        rest: List::from_vec(alloc, rest)?,
    })
}

/// `(t) = e`.
fn of_t(alloc: Global, e: Expr) -> Result<Formula, AllocError>
    ensures { IfOk result (λ f. f ≡ spec.of_t e) }
{
    let body = List::from_vec(alloc, vec![in alloc; Stmt::Return(Some(e))]?)?;
    let param = Param {
        name: label(alloc, b"t")?,
        default: None,
    };
    let params = List::from_vec(alloc, vec![in alloc; param]?)?;
    Ok(Formula { params, body })
}

/// `(t) = START if t <= 0 else f(t - 1) + g(t - 1)`.
pub fn f_formula(alloc: Global, start: i64) -> Result<Formula, AllocError>
    ensures { IfOk result (λ f. f ≡ spec.f_formula start) }
{
    let arm = Arm {
        value: Expr::Lit(Value::Int(start)),
        test: at_start(alloc)?,
    };
    let e = Expr::Cond {
        arms: List::from_vec(alloc, vec![in alloc; arm]?)?,
        last: Shared::new(alloc, both_before(alloc)?)?,
    };
    of_t(alloc, e)
}

/// `(t) = f(t) * FACTOR % 1009`.
pub fn g_formula(alloc: Global, factor: i64) -> Result<Formula, AllocError>
    ensures { IfOk result (λ f. f ≡ spec.g_formula factor) }
{
    let first = Shared::new(alloc, call(alloc, b"f", name(alloc, b"t")?)?)?;
    let mut rest = Vec::new(alloc);
    rest.push(ProductPart {
        op: ProductOp::Times,
        of: Expr::Lit(Value::Int(factor)),
    })?;
    rest.push(ProductPart {
        op: ProductOp::Rem,
        of: Expr::Lit(Value::Int(1009)),
    })?;
    let rest = List::from_vec(alloc, rest)?;
    of_t(alloc, Expr::Product { first, rest })
}
