//! The lines of the printed text, counted on the trees: a fault names the line of its statement.
ghost use Rattle.std.specs.Prelude.{◌≡◌, ◌-◌, ◌^◌, min};
ghost use Rattle.mx_syntax.specs.Heights as spec;

use crate::stmt::{IfArm, Stmt};

/// Whether a formula with this body is printed on one line: it only returns an expression or a display.
pub fn is_of_one_line(body: &[Stmt]) -> bool
    ensures { result ≡ spec.is_of_one_line body.now }
{
    match body {
        [Stmt::Return(Some(_))] => true,
        [Stmt::ReturnItem(_)] => true,
        _ => false,
    }
}

/// The line of a formula's first statement: 1 for a formula of one line, else 2, below its head.
/// The next statement of a body stands `height` lines below its neighbour, the first one of a loop
/// or an arm stands below its head.
pub fn first_line(body: &[Stmt]) -> u32
    ensures { result ≡ spec.first_line body.now }
{
    if is_of_one_line(body) { 1 } else { 2 }
}

/// How many lines a statement takes, with those within it, or the greatest u32 where that is passed.
#[cycle(lines)]
pub fn height(stmt: &Stmt) -> u32
    ensures { result ≡ min (spec.height stmt.now) (2 ^ 32 - 1) }
{
    match stmt {
        Stmt::If { arms, other } => match other {
            Some(body) => {
                let below = body_height(body.as_slice()).saturating_add(1);
                arms_height(arms.as_slice()).saturating_add(below)
            }
            None => arms_height(arms.as_slice()),
        },
        Stmt::For { body, .. } => body_height(body.as_slice()).saturating_add(1),
        Stmt::Pass => 1,
        Stmt::Return(_) => 1,
        Stmt::ReturnItem(_) => 1,
        Stmt::Assign(_, _) => 1,
        Stmt::Change(_, _, _) => 1,
    }
}

/// How many lines the statements take, or the greatest u32 where that is passed.
#[cycle(lines)]
pub fn body_height(body: &[Stmt]) -> u32
    ensures { result ≡ min (spec.body_height body.now) (2 ^ 32 - 1) }
{
    let mut total = 0u32;
    for stmt in body {
        total = total.saturating_add(height(stmt));
    }
    total
}

/// How many lines the arms of an `if` take, or the greatest u32 where that is passed.
#[cycle(lines)]
pub fn arms_height(arms: &[IfArm]) -> u32
    ensures { result ≡ min (spec.arms_height arms.now) (2 ^ 32 - 1) }
{
    let mut total = 0u32;
    for arm in arms {
        total = total.saturating_add(arm_height(arm));
    }
    total
}

/// How many lines an arm of an `if` takes, its test's among them, or the greatest u32 where that is passed.
#[cycle(lines)]
pub fn arm_height(arm: &IfArm) -> u32
    ensures { result ≡ min (spec.arm_height arm.now) (2 ^ 32 - 1) }
{
    body_height(arm.body.as_slice()).saturating_add(1)
}
