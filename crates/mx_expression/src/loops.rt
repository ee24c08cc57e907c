//! How many loops of an expression stand in one another.

ghost use Rattle.std.specs.Prelude.{◌≡◌, ◌-◌, ◌^◌, min, max, map};
ghost use Rattle.mx_expression.specs.Loops as spec;
ghost use Rattle.mx_expression.specs.Loops.{greatest};

use mx_syntax::expr::{Args, Arm, Comparison, Expr, PowerPart, ProductPart, SumPart, Trailer};

/// How many loops stand in one another, or the greatest u32 where that is passed. What a generator goes over is outside it.
#[cycle(loops)]
pub fn loops_in(expr: &Expr) -> u32
    ensures { result ≡ min (spec.loops_in expr.now) (2 ^ 32 - 1) }
{
    match expr {
        Expr::Lit(_) => 0,
        Expr::Name(_) => 0,
        Expr::Tuple(parts) => parts_loops(parts.as_slice()),
        Expr::Cond { arms, last } => arms_loops(arms.as_slice()).max(loops_in(last.get())),
        Expr::Or(parts) => parts_loops(parts.as_slice()),
        Expr::And(parts) => parts_loops(parts.as_slice()),
        Expr::Not { of, .. } => loops_in(of.get()),
        Expr::Compare { first, rest } => {
            loops_in(first.get()).max(comparisons_loops(rest.as_slice()))
        }
        Expr::Sum { first, rest } => loops_in(first.get()).max(sum_loops(rest.as_slice())),
        Expr::Product { first, rest } => loops_in(first.get()).max(product_loops(rest.as_slice())),
        Expr::Signed { of, .. } => loops_in(of.get()),
        Expr::Power { first, rest } => loops_in(first.get()).max(power_loops(rest.as_slice())),
        Expr::Post { of, trailers } => loops_in(of.get()).max(trailers_loops(trailers.as_slice())),
    }
}

#[cycle(loops)]
fn parts_loops(parts: &[Expr]) -> u32
    ensures { result ≡ min (greatest (map spec.loops_in parts.now)) (2 ^ 32 - 1) }
{
    let mut most = 0u32;
    for part in parts {
        most = most.max(loops_in(part));
    }
    most
}

#[cycle(loops)]
fn arms_loops(arms: &[Arm]) -> u32
    ensures { result ≡ min (greatest (map spec.arm_loops arms.now)) (2 ^ 32 - 1) }
{
    let mut most = 0u32;
    for arm in arms {
        most = most.max(arm_loops(arm));
    }
    most
}

#[cycle(loops)]
fn arm_loops(arm: &Arm) -> u32
    ensures { result ≡ min (spec.arm_loops arm.now) (2 ^ 32 - 1) }
{
    loops_in(&arm.value).max(loops_in(&arm.test))
}

#[cycle(loops)]
fn comparisons_loops(comparisons: &[Comparison]) -> u32
    ensures { result ≡ min (greatest (map spec.comparison_loops comparisons.now)) (2 ^ 32 - 1) }
{
    let mut most = 0u32;
    for comparison in comparisons {
        most = most.max(comparison_loops(comparison));
    }
    most
}

#[cycle(loops)]
fn comparison_loops(comparison: &Comparison) -> u32
    ensures { result ≡ min (spec.comparison_loops comparison.now) (2 ^ 32 - 1) }
{
    match comparison {
        Comparison::Op(_, part) => loops_in(part),
        Comparison::IsNone => 0,
        Comparison::IsNotNone => 0,
    }
}

#[cycle(loops)]
fn sum_loops(parts: &[SumPart]) -> u32
    ensures { result ≡ min (greatest (map spec.sum_part_loops parts.now)) (2 ^ 32 - 1) }
{
    let mut most = 0u32;
    for part in parts {
        most = most.max(sum_part_loops(part));
    }
    most
}

#[cycle(loops)]
fn sum_part_loops(part: &SumPart) -> u32
    ensures { result ≡ min (spec.sum_part_loops part.now) (2 ^ 32 - 1) }
{
    loops_in(&part.of)
}

#[cycle(loops)]
fn product_loops(parts: &[ProductPart]) -> u32
    ensures { result ≡ min (greatest (map spec.product_part_loops parts.now)) (2 ^ 32 - 1) }
{
    let mut most = 0u32;
    for part in parts {
        most = most.max(product_part_loops(part));
    }
    most
}

#[cycle(loops)]
fn product_part_loops(part: &ProductPart) -> u32
    ensures { result ≡ min (spec.product_part_loops part.now) (2 ^ 32 - 1) }
{
    loops_in(&part.of)
}

#[cycle(loops)]
fn power_loops(parts: &[PowerPart]) -> u32
    ensures { result ≡ min (greatest (map spec.power_part_loops parts.now)) (2 ^ 32 - 1) }
{
    let mut most = 0u32;
    for part in parts {
        most = most.max(power_part_loops(part));
    }
    most
}

#[cycle(loops)]
fn power_part_loops(part: &PowerPart) -> u32
    ensures { result ≡ min (spec.power_part_loops part.now) (2 ^ 32 - 1) }
{
    loops_in(&part.of)
}

#[cycle(loops)]
fn trailers_loops(trailers: &[Trailer]) -> u32
    ensures { result ≡ min (greatest (map spec.trailer_loops trailers.now)) (2 ^ 32 - 1) }
{
    let mut most = 0u32;
    for trailer in trailers {
        most = most.max(trailer_loops(trailer));
    }
    most
}

#[cycle(loops)]
fn trailer_loops(trailer: &Trailer) -> u32
    ensures { result ≡ min (spec.trailer_loops trailer.now) (2 ^ 32 - 1) }
{
    match trailer {
        Trailer::Call(args) => args_loops(args),
        Trailer::Index(parts) => parts_loops(parts.as_slice()),
        Trailer::Attr(_) => 0,
    }
}

#[cycle(loops)]
fn args_loops(args: &Args) -> u32
    ensures { result ≡ min (spec.args_loops args.now) (2 ^ 32 - 1) }
{
    match args {
        Args::List(parts) => parts_loops(parts.as_slice()),
        Args::Gen {
            element,
            over,
            test,
            ..
        } => {
            let within = match test {
                Some(test) => loops_in(element.get()).max(loops_in(test.get())),
                None => loops_in(element.get()),
            };
            loops_in(over.get()).max(within.saturating_add(1))
        }
    }
}
