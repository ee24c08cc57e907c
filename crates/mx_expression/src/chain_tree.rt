//! Trees of chains of operators. A chain of one part is that part.

ghost use Rattle.std.specs.Prelude.{◌≡◌, ◌∷◌, IfOk};
ghost use Rattle.mx_expression.specs.ChainParsers as spec;

use mx_list::items::Items;
use mx_list::list::List;
use mx_list::shared::Shared;
use mx_syntax::expr::{Arm, Comparison, Expr, ProductPart, SumPart};
use std::alloc::{AllocError, Global};

pub fn product(alloc: Global, first: Expr, rest: Items<ProductPart>) -> Result<Expr, AllocError>
    ensures { IfOk result (λ x. x ≡ spec.product_of first rest) }
{
    if rest.is_empty() {
        return Ok(first);
    }
    let first = Shared::new(alloc, first)?;
    let rest = List::from_vec(alloc, rest.into_vec())?;
    Ok(Expr::Product { first, rest })
}

pub fn sum(alloc: Global, first: Expr, rest: Items<SumPart>) -> Result<Expr, AllocError>
    ensures { IfOk result (λ x. x ≡ spec.sum_of first rest) }
{
    if rest.is_empty() {
        return Ok(first);
    }
    let first = Shared::new(alloc, first)?;
    let rest = List::from_vec(alloc, rest.into_vec())?;
    Ok(Expr::Sum { first, rest })
}

pub fn compare(alloc: Global, first: Expr, rest: Items<Comparison>) -> Result<Expr, AllocError>
    ensures { IfOk result (λ x. x ≡ spec.compare_of first rest) }
{
    if rest.is_empty() {
        return Ok(first);
    }
    let first = Shared::new(alloc, first)?;
    let rest = List::from_vec(alloc, rest.into_vec())?;
    Ok(Expr::Compare { first, rest })
}

pub fn not(alloc: Global, count: u32, of: Expr) -> Result<Expr, AllocError>
    ensures { IfOk result (λ x. x ≡ spec.not_of count of) }
{
    if count == 0 {
        return Ok(of);
    }
    let of = Shared::new(alloc, of)?;
    Ok(Expr::Not { count, of })
}

fn all(alloc: Global, first: Expr, rest: Items<Expr>) -> Result<List<Expr>, AllocError>
    ensures { IfOk result (λ parts. parts ≡ first ∷ rest) }
{
    let mut rest = rest.into_vec();
    let mut parts = Vec::new(alloc);
    parts.push(first)?;
    parts.append(&mut rest)?;
    List::from_vec(alloc, parts)
}

pub fn and(alloc: Global, first: Expr, rest: Items<Expr>) -> Result<Expr, AllocError>
    ensures { IfOk result (λ x. x ≡ spec.and_of first rest) }
{
    if rest.is_empty() {
        return Ok(first);
    }
    Ok(Expr::And(all(alloc, first, rest)?))
}

pub fn or(alloc: Global, first: Expr, rest: Items<Expr>) -> Result<Expr, AllocError>
    ensures { IfOk result (λ x. x ≡ spec.or_of first rest) }
{
    if rest.is_empty() {
        return Ok(first);
    }
    Ok(Expr::Or(all(alloc, first, rest)?))
}

pub fn conditional(alloc: Global, arms: Items<Arm>, last: Expr) -> Result<Expr, AllocError>
    ensures { IfOk result (λ x. x ≡ spec.conditional_of arms last) }
{
    if arms.is_empty() {
        return Ok(last);
    }
    let last = Shared::new(alloc, last)?;
    let arms = List::from_vec(alloc, arms.into_vec())?;
    Ok(Expr::Cond { arms, last })
}
