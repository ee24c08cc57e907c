//! From statements to instructions, from the last to the first.
ghost use Rattle.std.specs.Prelude.{◌≡◌, ◌+◌, ◌-◌, ◌^◌, ◌++◌, ◌∷◌, ℕ, List as Many, false, map, min, length, reverse, IfOk, OnOk, Option as Maybe};
ghost use Rattle.mx_syntax.specs.declared.stmt.Stmt.{Stmt as Stmts};
ghost use Rattle.mx_syntax.specs.Heights as spec;
ghost use Rattle.mx_code.specs.declared.action.Instr.{Instr};
ghost use Rattle.mx_code.specs.Names.{place_of};
ghost use Rattle.mx_code.specs.Operators.{change_op};
ghost use Rattle.mx_code.specs.Expressions.{at, Coded};
ghost use Rattle.mx_code.specs.Statements.{store_action, nothing_code, refs_code, entries_code, return_code, display_code, assign_code, turns_code, body_code, other_code, branches_code, stmt_code, coded};
ghost use Rattle.mx_code.specs.Parts.{arm_coded};

use crate::action::{Action, Instr, Local};
use crate::emit::{place, put, put_block, put_name, since, way_back};
use crate::expressions::put_part;
use mx_syntax::expr::Expr;
use mx_syntax::height::{arm_height, arms_height, body_height, height};
use mx_syntax::op::Op;
use mx_syntax::stmt::{ArithOp, IfArm, ItemEntry, Stmt};
use mx_value::fault::FaultKind;
use mx_value::label::Label;
use mx_value::value::Value;
use std::alloc::{AllocError, Global};

/// The line so many lines below another. More lines than a number has bits for are refused.
fn line_below(line: u32, height: u32) -> Result<u32, AllocError>
    ensures { (exact : ℕ) → height ≡ min exact (2 ^ 32 - 1) →
        IfOk result (λ below. below ≡ line + exact) }
{
    if height == u32::MAX {
        return Err(AllocError);
    }
    match line.checked_add(height) {
        Some(below) => Ok(below),
        None => Err(AllocError),
    }
}

/// The line at which so many lines begin that end above another.
fn line_above(below: u32, height: u32) -> u32
    ensures { (line exact : ℕ) → below ≡ line + exact → height ≡ min exact (2 ^ 32 - 1) →
        result ≡ line }
{
    below.saturating_sub(height)
}

/// Returns None.
pub fn put_nothing(code: &mut Vec<Instr>, line: u32) -> Result<(), AllocError>
    ensures { OnOk result (reverse code.new.items ≡ nothing_code line ++ reverse code.old.items) }
{
    put(code, line, Action::Return)?;
    put(code, line, Action::Const(Value::Nothing))
}

/// Sets the local of a name.
fn put_store(
    code: &mut Vec<Instr>,
    scope: &[Local],
    line: u32,
    name: &Label,
) -> Result<(), AllocError>
    ensures { OnOk result
        (reverse code.new.items
        ≡ at line (store_action (place_of scope.now name.now)) ∷ reverse code.old.items) }
{
    match place(scope, name) {
        Some(place) => put(code, line, Action::Store(place)),
        None => put(code, line, Action::Fail(FaultKind::TypeMismatch)),
    }
}

/// A return of a value, or of None.
fn put_return(
    alloc: Global,
    code: &mut Vec<Instr>,
    scope: &[Local],
    line: u32,
    value: &Option<Expr>,
) -> Result<(), AllocError>
    ensures { OnOk result
        (reverse code.new.items ≡ return_code value.now scope.now line ++ reverse code.old.items) }
{
    match value {
        None => put_nothing(code, line),
        Some(value) => {
            put(code, line, Action::Return)?;
            put_part(alloc, code, scope, line, value, false)
        }
    }
}

/// References of a display, from the left.
fn put_refs(
    alloc: Global,
    code: &mut Vec<Instr>,
    scope: &[Local],
    line: u32,
    refs: &[(Label, Expr)],
) -> Result<(), AllocError>
    ensures { OnOk result
        (reverse code.new.items ≡ refs_code refs.now scope.now line ++ reverse code.old.items) }
{
    for i in (0..refs.len()).rev() {
        let named = &refs[i];
        put(code, line, Action::Refer(named.0.copy()?))?;
        put_part(alloc, code, scope, line, &named.1, false)?;
    }
    Ok(())
}

/// The entries of a display, from the left.
fn put_entries(
    alloc: Global,
    code: &mut Vec<Instr>,
    scope: &[Local],
    line: u32,
    entries: &[ItemEntry],
) -> Result<(), AllocError>
    ensures { OnOk result
        (reverse code.new.items
        ≡ entries_code entries.now scope.now line ++ reverse code.old.items) }
{
    for i in (0..entries.len()).rev() {
        match &entries[i] {
            ItemEntry::Refs(refs) => put_refs(alloc, code, scope, line, refs.as_slice())?,
            ItemEntry::Base(base) => {
                put(code, line, Action::Base)?;
                put_part(alloc, code, scope, line, base, false)?;
            }
        }
    }
    Ok(())
}

/// A return of a display.
fn put_display(
    alloc: Global,
    code: &mut Vec<Instr>,
    scope: &[Local],
    line: u32,
    entries: &[ItemEntry],
) -> Result<(), AllocError>
    ensures { OnOk result
        (reverse code.new.items
        ≡ display_code entries.now scope.now line ++ reverse code.old.items) }
{
    put(code, line, Action::ReturnDisplay)?;
    put_entries(alloc, code, scope, line, entries)?;
    put(code, line, Action::Display)
}

/// A value for a local.
fn put_assign(
    alloc: Global,
    code: &mut Vec<Instr>,
    scope: &[Local],
    line: u32,
    name: &Label,
    value: &Expr,
) -> Result<(), AllocError>
    ensures { OnOk result
        (reverse code.new.items
        ≡ assign_code name.now value.now scope.now line ++ reverse code.old.items) }
{
    put_store(code, scope, line, name)?;
    put_part(alloc, code, scope, line, value, false)
}

/// What a statement does to the local that it changes.
fn changing(op: ArithOp) -> Op
    ensures { result ≡ change_op op }
{
    match op {
        ArithOp::Add => Op::Add,
        ArithOp::Sub => Op::Sub,
        ArithOp::Mul => Op::Mul,
    }
}

/// The turns of a loop: for each item these instructions, which were put into a vector of their own.
fn put_turns(
    code: &mut Vec<Instr>,
    scope: &[Local],
    line: u32,
    name: &Label,
    body: Vec<Instr>,
) -> Result<(), AllocError>
    ensures { OnOk result
        (reverse code.new.items
        ≡ turns_code (place_of scope.now name.now) line (reverse body.items)
        ++ reverse code.old.items) }
{
    let Some(place) = place(scope, name) else {
        return put(code, line, Action::Fail(FaultKind::TypeMismatch));
    };
    let end = code.len();
    let back = way_back(&body)?;
    put(code, line, Action::Back(back))?;
    put_block(code, body)?;
    let passed = since(code, end);
    put(code, line, Action::NextItem(place, passed))
}

/// The statements of a body, the first at the line.
#[cycle(statement)]
pub fn put_body(
    alloc: Global,
    code: &mut Vec<Instr>,
    scope: &[Local],
    line: u32,
    body: &[Stmt],
) -> Result<(), AllocError>
    ensures { OnOk result
        (reverse code.new.items
        ≡ body_code (map coded body.now) scope.now line ++ reverse code.old.items) }
{
    let mut below = line_below(line, body_height(body))?;
    for i in (0..body.len()).rev() {
        let stmt = &body[i];
        below = line_above(below, height(stmt));
        put_stmt(alloc, code, scope, below, stmt)?;
    }
    Ok(())
}

/// The instructions of a statement at a line.
#[cycle(statement)]
fn put_stmt(
    alloc: Global,
    code: &mut Vec<Instr>,
    scope: &[Local],
    line: u32,
    stmt: &Stmt,
) -> Result<(), AllocError>
    ensures { OnOk result
        (reverse code.new.items ≡ stmt_code stmt.now scope.now line ++ reverse code.old.items) }
{
    match stmt {
        Stmt::Pass => Ok(()),
        Stmt::Return(value) => put_return(alloc, code, scope, line, value),
        Stmt::ReturnItem(entries) => put_display(alloc, code, scope, line, entries.as_slice()),
        Stmt::Assign(name, value) => put_assign(alloc, code, scope, line, name, value),
        Stmt::Change(name, op, value) => {
            put_store(code, scope, line, name)?;
            put(code, line, Action::Binary(changing(*op)))?;
            put_part(alloc, code, scope, line, value, false)?;
            put_name(code, scope, line, name, false)
        }
        Stmt::If { arms, other } => {
            let end = code.len();
            match other {
                None => put_branches(alloc, code, scope, line, arms.as_slice(), end),
                Some(body) => {
                    let head = line_below(line, arms_height(arms.as_slice()))?;
                    put_body(alloc, code, scope, line_below(head, 1)?, body.as_slice())?;
                    put_branches(alloc, code, scope, line, arms.as_slice(), end)
                }
            }
        }
        Stmt::For { name, over, body } => {
            let mut turns = Vec::new(alloc);
            let inner = line_below(line, 1)?;
            put_body(alloc, &mut turns, scope, inner, body.as_slice())?;
            put_turns(code, scope, line, name, turns)?;
            put(code, line, Action::Iterate)?;
            put_part(alloc, code, scope, line, over, false)
        }
    }
}

/// The arms of an `if`, the first at the line, before what was put since there were so many instructions.
#[cycle(statement)]
fn put_branches(
    alloc: Global,
    code: &mut Vec<Instr>,
    scope: &[Local],
    line: u32,
    arms: &[IfArm],
    end: usize,
) -> Result<(), AllocError>
    ensures { (other : Maybe (Many (Stmts × Coded))) (below : Many Instr) → reverse code.old.items ≡ other_code other scope.now (line + spec.arms_height arms.now) ++ below → length below ≡ end →
        OnOk result (reverse code.new.items ≡ branches_code (map arm_coded arms.now) other scope.now line ++ below) }
{
    let mut head = line_below(line, arms_height(arms))?;
    for i in (0..arms.len()).rev() {
        let arm = &arms[i];
        head = line_above(head, arm_height(arm));
        let below = code.len();
        let other = since(code, end);
        put(code, head, Action::Jump(other))?;
        put_body(
            alloc,
            code,
            scope,
            line_below(head, 1)?,
            arm.body.as_slice(),
        )?;
        let given = since(code, below);
        put(code, head, Action::JumpUnless(given))?;
        put_part(alloc, code, scope, head, &arm.test, false)?;
    }
    Ok(())
}
