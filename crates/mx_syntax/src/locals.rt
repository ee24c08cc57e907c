//! The locals of a formula.
ghost use Rattle.std.specs.Prelude.{◌≡◌, [], map, IfOk, OnOk};
ghost use Rattle.mx_syntax.specs.Lists.{flat};
ghost use Rattle.mx_syntax.specs.Locals as spec;
ghost use Rattle.mx_syntax.specs.Locals.{add, add_all, arm_bound, bound_by, names_of};

use crate::stmt::{Formula, IfArm, Param, Stmt};
use mx_value::label::Label;
use std::alloc::{AllocError, Global};

/// The names of the formula's own scope, each once, in the order in which they are bound first: the
/// parameters, then the names that its statements bind. The variable of a generator belongs to the
/// generator, which is a scope of its own.
pub fn locals_of(alloc: Global, formula: &Formula) -> Result<Vec<Label>, AllocError>
    ensures { IfOk result (λ names. names.items ≡ spec.locals_of formula.now) }
{
    let mut names = Vec::new(alloc);
    add_params(&mut names, formula.params.as_slice())?;
    add_body(&mut names, formula.body.as_slice())?;
    Ok(names)
}

/// The names that the statements bind, each once, in the order in which they are bound first.
pub fn names_bound(alloc: Global, body: &[Stmt]) -> Result<Vec<Label>, AllocError>
    ensures { IfOk result (λ names. names.items ≡ add_all [] (flat (map bound_by body.now))) }
{
    let mut names = Vec::new(alloc);
    add_body(&mut names, body)?;
    Ok(names)
}

/// Adds a name where it is not among the names.
fn add_name(names: &mut Vec<Label>, name: &Label) -> Result<(), AllocError>
    ensures { OnOk result (names.new.items ≡ add names.old.items name.now) }
{
    if names.contains(name) {
        return Ok(());
    }
    names.push(name.copy()?)?;
    Ok(())
}

fn add_params(names: &mut Vec<Label>, params: &[Param]) -> Result<(), AllocError>
    ensures { OnOk result (names.new.items ≡ add_all names.old.items (names_of params.now)) }
{
    for param in params {
        add_name(names, &param.name)?;
    }
    Ok(())
}

#[cycle(locals)]
fn add_body(names: &mut Vec<Label>, body: &[Stmt]) -> Result<(), AllocError>
    ensures { OnOk result
        (names.new.items ≡ add_all names.old.items (flat (map bound_by body.now))) }
{
    for stmt in body {
        add_bound(names, stmt)?;
    }
    Ok(())
}

/// Adds the names that a statement and those within it bind.
#[cycle(locals)]
fn add_bound(names: &mut Vec<Label>, stmt: &Stmt) -> Result<(), AllocError>
    ensures { OnOk result (names.new.items ≡ add_all names.old.items (bound_by stmt.now)) }
{
    match stmt {
        Stmt::Pass => Ok(()),
        Stmt::Return(_) => Ok(()),
        Stmt::ReturnItem(_) => Ok(()),
        Stmt::Assign(name, _) => add_name(names, name),
        Stmt::Change(name, _, _) => add_name(names, name),
        Stmt::If { arms, other } => {
            add_arms(names, arms.as_slice())?;
            match other {
                Some(body) => add_body(names, body.as_slice()),
                None => Ok(()),
            }
        }
        Stmt::For { name, body, .. } => {
            add_name(names, name)?;
            add_body(names, body.as_slice())
        }
    }
}

#[cycle(locals)]
fn add_arms(names: &mut Vec<Label>, arms: &[IfArm]) -> Result<(), AllocError>
    ensures { OnOk result
        (names.new.items ≡ add_all names.old.items (flat (map arm_bound arms.now))) }
{
    for arm in arms {
        add_body(names, arm.body.as_slice())?;
    }
    Ok(())
}
