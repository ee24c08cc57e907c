//! Whether few enough loops of a formula stand in one another.

ghost use Rattle.std.specs.Prelude.{◌≡◌, nat_le, map};
ghost use Rattle.mx_expression.specs.Loops.{loops_in};
ghost use Rattle.mx_parse.specs.FewLoops.{few};
ghost use Rattle.mx_parse.specs.FormulaLimits.{body_loops, entry_loops, if_arm_loops, loops, maybe_loops, ref_loops, value_loops};

use mx_expression::loops::loops_in;
use mx_list::list::List;
use mx_syntax::expr::Expr;
use mx_syntax::stmt::{IfArm, ItemEntry, Stmt};
use mx_value::label::Label;

/// Whether at most so many loops of the expression stand in one another.
#[tactic(auto, using(crate::proofs::FewLoops::le_capped))]
pub fn expression_within(expression: &Expr, most: u8) -> bool
    ensures { result ≡ nat_le (loops_in expression.now) most }
{
    loops_in(expression) <= most as u32
}

fn refs_within(refs: &[(Label, Expr)], most: u8) -> bool
    ensures { result ≡ few most (map ref_loops refs.now) }
{
    for reference in refs {
        if !expression_within(&reference.1, most) {
            return false;
        }
    }
    true
}

fn entry_within(entry: &ItemEntry, most: u8) -> bool
    ensures { result ≡ nat_le (entry_loops entry.now) most }
{
    match entry {
        ItemEntry::Refs(refs) => refs_within(refs.as_slice(), most),
        ItemEntry::Base(base) => expression_within(base, most),
    }
}

fn entries_within(entries: &[ItemEntry], most: u8) -> bool
    ensures { result ≡ few most (map entry_loops entries.now) }
{
    for entry in entries {
        if !entry_within(entry, most) {
            return false;
        }
    }
    true
}

fn value_within(value: &Option<Expr>, most: u8) -> bool
    ensures { result ≡ nat_le (value_loops value.now) most }
{
    match value {
        Some(value) => expression_within(value, most),
        None => true,
    }
}

/// Whether at most so many loops of the statements stand in one another.
#[tactic(auto, using(crate::proofs::FewLoops::le_max, crate::proofs::FewLoops::le_greatest, crate::proofs::FewLoops::le_loop, crate::proofs::FewLoops::le_none))]
#[cycle(loops)]
fn body_within(body: &[Stmt], most: u8) -> bool
    ensures { result ≡ few most (map loops body.now) }
{
    for statement in body {
        if !statement_within(statement, most) {
            return false;
        }
    }
    true
}

#[tactic(auto, using(crate::proofs::FewLoops::le_max, crate::proofs::FewLoops::le_greatest, crate::proofs::FewLoops::le_loop, crate::proofs::FewLoops::le_none))]
#[cycle(loops)]
fn statement_within(statement: &Stmt, most: u8) -> bool
    ensures { result ≡ nat_le (loops statement.now) most }
{
    match statement {
        Stmt::Pass => true,
        Stmt::Return(value) => value_within(value, most),
        Stmt::ReturnItem(entries) => entries_within(entries.as_slice(), most),
        Stmt::Assign(_, value) => expression_within(value, most),
        Stmt::Change(_, _, value) => expression_within(value, most),
        Stmt::If { arms, other } => {
            if !arms_within(arms.as_slice(), most) {
                return false;
            }
            match other {
                Some(body) => body_within(body.as_slice(), most),
                None => true,
            }
        }
        Stmt::For { over, body, .. } => {
            if most == 0 {
                return false;
            }
            if !expression_within(over, most) {
                return false;
            }
            body_within(body.as_slice(), most - 1)
        }
    }
}

#[tactic(auto, using(crate::proofs::FewLoops::le_max, crate::proofs::FewLoops::le_greatest, crate::proofs::FewLoops::le_loop, crate::proofs::FewLoops::le_none))]
#[cycle(loops)]
fn arms_within(arms: &[IfArm], most: u8) -> bool
    ensures { result ≡ few most (map if_arm_loops arms.now) }
{
    for arm in arms {
        if !arm_within(arm, most) {
            return false;
        }
    }
    true
}

#[tactic(auto, using(crate::proofs::FewLoops::le_max, crate::proofs::FewLoops::le_greatest, crate::proofs::FewLoops::le_loop, crate::proofs::FewLoops::le_none))]
#[cycle(loops)]
fn arm_within(arm: &IfArm, most: u8) -> bool
    ensures { result ≡ nat_le (if_arm_loops arm.now) most }
{
    if !expression_within(&arm.test, most) {
        return false;
    }
    body_within(arm.body.as_slice(), most)
}

/// The same, where there are statements.
pub fn maybe_within(body: &Option<List<Stmt>>, most: u8) -> bool
    ensures { result ≡ nat_le (maybe_loops body.now) most }
{
    match body {
        Some(body) => list_within(body.as_slice(), most),
        None => true,
    }
}

/// The same, of the greatest number.
pub fn list_within(body: &[Stmt], most: u8) -> bool
    ensures { result ≡ nat_le (body_loops body.now) most }
{
    body_within(body, most)
}
