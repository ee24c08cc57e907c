//! Instructions are put from the last to the first, so that a jump knows what it passes.
ghost use Rattle.std.specs.Prelude.{◌≡◌, ◌++◌, ◌∷◌, ◌-◌, ◌+◌, false, length, reverse, map, OnOk, IfOk};
ghost use Rattle.mx_syntax.specs.Binding as spec;
ghost use Rattle.mx_code.specs.Names as names;
ghost use Rattle.mx_code.specs.Operators as operators;
ghost use Rattle.mx_code.specs.Expressions.{at, name_code};

use crate::action::{Action, Instr, Local};
use mx_syntax::expr::{CmpOp, ProductOp, Sign, SumOp};
use mx_syntax::op::Op;
use mx_value::label::Label;
use std::alloc::{AllocError, Global};

/// One more instruction, in front of the others.
pub fn put(code: &mut Vec<Instr>, line: u32, action: Action) -> Result<(), AllocError>
    ensures { OnOk result (reverse code.new.items ≡ at line action ∷ reverse code.old.items) }
{
    code.push(Instr { action, line })?;
    Ok(())
}

/// Instructions that were put into a vector of their own, in front of the others.
pub fn put_block(code: &mut Vec<Instr>, mut block: Vec<Instr>) -> Result<(), AllocError>
    ensures { OnOk result (reverse code.new.items ≡ reverse block.items ++ reverse code.old.items) }
{
    code.append(&mut block)?;
    Ok(())
}

/// How many instructions were put since there were so many.
pub fn since(code: &Vec<Instr>, count: usize) -> usize
    ensures { result ≡ length code.now.items - count }
{
    code.len().saturating_sub(count)
}

/// The way back over so many instructions from the one behind them to the one before them.
pub fn way_back(code: &Vec<Instr>) -> Result<usize, AllocError>
    ensures { IfOk result (λ count. count ≡ length code.now.items + 1) }
{
    match code.len().checked_add(1) {
        Some(count) => Ok(count),
        None => Err(AllocError),
    }
}

/// The place of the local of a name.
pub fn place(scope: &[Local], name: &Label) -> Option<usize>
    ensures { result ≡ names.place_of scope.now name.now }
{
    for local in scope {
        if local.name == *name {
            return Some(local.place);
        }
    }
    None
}

/// The locals with one more in front, at the place behind all others.
pub fn with_name(alloc: Global, scope: &[Local], name: &Label) -> Result<Vec<Local>, AllocError>
    ensures { IfOk result (λ more. more.items ≡ names.with_name name.now scope.now) }
{
    let mut more = Vec::new(alloc);
    more.push(Local {
        name: name.copy()?,
        place: scope.len(),
    })?;
    for local in scope {
        more.push(Local {
            name: local.name.copy()?,
            place: local.place,
        })?;
    }
    Ok(more)
}

/// A local, or else a name that is looked up: what is called next where the flag is true, or else a
/// value.
pub fn put_name(
    code: &mut Vec<Instr>,
    scope: &[Local],
    line: u32,
    name: &Label,
    is_called: bool,
) -> Result<(), AllocError>
    ensures { OnOk result
        (reverse code.new.items
        ≡ name_code name.now is_called scope.now line ++ reverse code.old.items) }
{
    if let Some(place) = place(scope, name) {
        return put(code, line, Action::Local(place));
    }
    if is_called {
        return put(code, line, Action::Callee(name.copy()?));
    }
    put(code, line, Action::Name(name.copy()?))
}

/// What compares.
pub fn compare_op(op: CmpOp) -> Op
    ensures { result ≡ operators.compare_op op }
{
    match op {
        CmpOp::Lt => Op::Lt,
        CmpOp::Le => Op::Le,
        CmpOp::Gt => Op::Gt,
        CmpOp::Ge => Op::Ge,
        CmpOp::Eq => Op::Eq,
        CmpOp::Ne => Op::Ne,
        CmpOp::In => Op::In,
        CmpOp::NotIn => Op::NotIn,
    }
}

/// What joins a part to a sum.
pub fn sum_op(op: SumOp) -> Op
    ensures { result ≡ operators.sum_op op }
{
    match op {
        SumOp::Plus => Op::Add,
        SumOp::Minus => Op::Sub,
    }
}

/// What joins a part to a product.
pub fn product_op(op: ProductOp) -> Op
    ensures { result ≡ operators.product_op op }
{
    match op {
        ProductOp::Times => Op::Mul,
        ProductOp::Over => Op::Div,
        ProductOp::Floor => Op::FloorDiv,
        ProductOp::Rem => Op::Rem,
    }
}

/// What a sign does.
pub fn sign_op(sign: Sign) -> Op
    ensures { result ≡ operators.sign_op sign }
{
    match sign {
        Sign::Plus => Op::Plus,
        Sign::Minus => Op::Neg,
    }
}
