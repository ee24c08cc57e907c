//! Whether a formula returns an item display.
ghost use Rattle.std.specs.Prelude.{◌≡◌};
ghost use Rattle.std.specs.List.{list_any};
ghost use Rattle.mx_model.specs.Displays.{has_display, arm_display, shows_item};

use mx_syntax::stmt::{Formula, IfArm, Stmt};

/// Whether a formula returns an item display.
pub fn shows_item(formula: &Formula) -> bool
    ensures { result ≡ shows_item formula.now }
{
    any_display(formula.body.as_slice())
}

/// Whether one of the statements is a return of an item display, or has one within it.
#[cycle(displays)]
fn any_display(body: &[Stmt]) -> bool
    ensures { result ≡ list_any has_display body.now }
{
    for stmt in body {
        if has_display(stmt) {
            return true;
        }
    }
    false
}

/// Whether one of the arms has such a return.
#[cycle(displays)]
fn any_arm(arms: &[IfArm]) -> bool
    ensures { result ≡ list_any arm_display arms.now }
{
    for arm in arms {
        if arm_display(arm) {
            return true;
        }
    }
    false
}

/// Whether an arm has such a return.
#[cycle(displays)]
fn arm_display(arm: &IfArm) -> bool
    ensures { result ≡ arm_display arm.now }
{
    any_display(arm.body.as_slice())
}

/// Whether a statement is a return of an item display, or has one within it.
#[cycle(displays)]
fn has_display(stmt: &Stmt) -> bool
    ensures { result ≡ has_display stmt.now }
{
    match stmt {
        Stmt::Pass | Stmt::Return(_) | Stmt::Assign(_, _) | Stmt::Change(_, _, _) => false,
        Stmt::ReturnItem(_) => true,
        Stmt::If { arms, other } => match other {
            Some(body) => any_arm(arms.as_slice()) || any_display(body.as_slice()),
            None => any_arm(arms.as_slice()),
        },
        Stmt::For { body, .. } => any_display(body.as_slice()),
    }
}
