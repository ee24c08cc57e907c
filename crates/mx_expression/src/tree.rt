//! Trees of chains. A chain of one part is that part.

ghost use Rattle.std.specs.Prelude.{◌≡◌, IfOk};
ghost use Rattle.mx_syntax.specs.declared.expr.Expr.TheVariants as expr;
ghost use Rattle.mx_syntax.specs.declared.expr.Args.TheVariants as args;
ghost use Rattle.mx_syntax.specs.declared.expr.Trailer.TheVariants as trailer;
ghost use Rattle.mx_expression.specs.OperandParsers as spec;

use mx_list::items::Items;
use mx_list::list::List;
use mx_list::shared::Shared;
use mx_syntax::expr::{Args, Expr, PowerPart, Sign, Trailer};
use mx_value::label::Label;
use std::alloc::{AllocError, Global};

pub fn post(alloc: Global, of: Expr, trailers: Items<Trailer>) -> Result<Expr, AllocError>
    ensures { IfOk result (λ x. x ≡ spec.post_of of trailers) }
{
    if trailers.is_empty() {
        return Ok(of);
    }
    let of = Shared::new(alloc, of)?;
    let trailers = List::from_vec(alloc, trailers.into_vec())?;
    Ok(Expr::Post { of, trailers })
}

pub fn power(alloc: Global, first: Expr, rest: Items<PowerPart>) -> Result<Expr, AllocError>
    ensures { IfOk result (λ x. x ≡ spec.power_of first rest) }
{
    if rest.is_empty() {
        return Ok(first);
    }
    let first = Shared::new(alloc, first)?;
    let rest = List::from_vec(alloc, rest.into_vec())?;
    Ok(Expr::Power { first, rest })
}

pub fn signed(alloc: Global, signs: Items<Sign>, of: Expr) -> Result<Expr, AllocError>
    ensures { IfOk result (λ x. x ≡ spec.signed_by signs of) }
{
    if signs.is_empty() {
        return Ok(of);
    }
    let of = Shared::new(alloc, of)?;
    let signs = List::from_vec(alloc, signs.into_vec())?;
    Ok(Expr::Signed { signs, of })
}

pub fn tuple(alloc: Global, items: Items<Expr>) -> Result<Expr, AllocError>
    ensures { IfOk result (λ x. x ≡ expr.Tuple items) }
{
    Ok(Expr::Tuple(List::from_vec(alloc, items.into_vec())?))
}

pub fn list(alloc: Global, items: Items<Expr>) -> Result<Args, AllocError>
    ensures { IfOk result (λ x. x ≡ args.List items) }
{
    Ok(Args::List(List::from_vec(alloc, items.into_vec())?))
}

pub fn index(alloc: Global, items: Items<Expr>) -> Result<Trailer, AllocError>
    ensures { IfOk result (λ x. x ≡ trailer.Index items) }
{
    Ok(Trailer::Index(List::from_vec(alloc, items.into_vec())?))
}

/// What a generator goes over, and its test.
#[derive(Drop)]
pub struct Source {
    pub name: Label,
    pub over: Shared<Expr>,
    pub test: Option<Shared<Expr>>,
}
