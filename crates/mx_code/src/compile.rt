//! The compiler.
ghost use Rattle.std.specs.Prelude.{◌≡◌, max, ◌+◌, ◌++◌, ◌∷◌, [], List as Many, drop, get_or, length, map, reverse, take, true, IfOk, OnOk, OnErr, IsTrue, IfSome, ◌<◌};
ghost use Rattle.mx_syntax.specs.Lists.{flat};
ghost use Rattle.mx_syntax.specs.Locals.{add_all, bound_by, names_of};
ghost use Rattle.mx_code.specs.Names.{numbered};
ghost use Rattle.mx_code.specs.Statements.{code_of, places_for, places_in, scope_of, size_of};
ghost use Rattle.mx_code.specs.Pools.{is_in};
ghost use Rattle.mx_code.specs.Told.{told, told_action};

use crate::action::{Action, Instr, Local};
use crate::code::{Code, Instruction};
use crate::fused::fuse;
use crate::statements::{put_body, put_nothing};
use mx_list::items::Items;
use mx_syntax::height::first_line;
use mx_syntax::locals::names_bound;
use mx_syntax::stmt::{Param, Stmt};
use mx_value::label::Label;
use mx_value::value::Value;
use std::alloc::{AllocError, Global};

/// The code of a formula with these parameters and this body, or of a parameter list, whose body is
/// empty where it has none.
pub fn compile(alloc: Global, params: &[Param], body: &[Stmt]) -> Result<Code, AllocError>
    ensures { IfOk result
        (λ c. (told c ≡ code_of params.now body.now) × (c.size ≡ size_of params.now body.now)) }
{
    let scope = scope(alloc, params, body)?;
    // Room for a formula of common length.
    let mut code = Vec::with_capacity(alloc, 16)?;
    put_nothing(&mut code, 1)?;
    put_body(alloc, &mut code, scope.as_slice(), first_line(body), body)?;
    let size = places(code.as_slice(), scope.len())?;
    packed(alloc, code.as_slice(), size)
}

/// The locals of a formula.
fn scope(alloc: Global, params: &[Param], body: &[Stmt]) -> Result<Vec<Local>, AllocError>
    ensures { IfOk result (λ locals. locals.items ≡ scope_of params.now body.now) }
{
    let mut locals = Vec::new(alloc);
    for param in params {
        push_local(&mut locals, &param.name)?;
    }
    let bound = names_bound(alloc, body)?;
    for name in bound.as_slice() {
        push_local(&mut locals, name)?;
    }
    Ok(locals)
}

/// One more local, at the next place.
fn push_local(locals: &mut Vec<Local>, name: &Label) -> Result<(), AllocError>
    ensures { (names : Many Label) → locals.old.items ≡ numbered 0 names →
        OnOk result (locals.new.items ≡ numbered 0 (names ++ name.now ∷ [])) }
{
    let place = locals.len();
    locals.push(Local {
        name: name.copy()?,
        place,
    })?;
    Ok(())
}

/// How many places instructions need, that were put from the last to the first, or as many as are in
/// scope.
fn places(code: &[Instr], scope: usize) -> Result<usize, AllocError>
    ensures { IfOk result (λ count. count ≡ max scope (places_in (reverse code.now))) }
{
    let mut count = scope;
    for i in (0..code.len()).rev() {
        let needed = places_for(&code[i].action)?;
        count = count.max(needed);
    }
    Ok(count)
}

/// How many places an instruction needs.
fn places_for(action: &Action) -> Result<usize, AllocError>
    ensures { IfOk result (λ count. count ≡ places_for action.now) }
{
    let Action::NextItem(place, _) = action else {
        return Ok(0);
    };
    match place.checked_add(1) {
        Some(count) => Ok(count),
        None => Err(AllocError),
    }
}

/// Instructions that were put from the last to the first, packed.
fn packed(alloc: Global, code: &[Instr], size: usize) -> Result<Code, AllocError>
    ensures { IfOk result (λ c. (told c ≡ reverse code.now) × (c.size ≡ size)) }
{
    let mut instructions = Items::with_capacity(alloc, code.len())?;
    let mut lines = Items::with_capacity(alloc, code.len())?;
    let mut constants = Items::new(alloc);
    let mut names = Items::new(alloc);
    for i in (0..code.len()).rev() {
        let instr = &code[i];
        let instruction = pack(alloc, &mut constants, &mut names, &instr.action)?;
        instructions.push(fuse(code, i, instruction))?;
        lines.push(instr.line)?;
    }
    Ok(Code {
        instructions,
        lines,
        constants,
        names,
        size,
    })
}

/// An action as an instruction over pools, which keep what they have.
fn pack(
    alloc: Global,
    constants: &mut Items<Value>,
    names: &mut Items<Label>,
    action: &Action,
) -> Result<Instruction, AllocError>
    ensures told { IfOk result (λ o. told_action constants.new names.new o ≡ action.now) }
    ensures in_pools { IfOk result
        (λ o. IsTrue (is_in (length constants.new) (length names.new) o)) }
    ensures constants { take (length constants.old) constants.new ≡ constants.old }
    ensures names { take (length names.old) names.new ≡ names.old }
{
    match action {
        Action::Const(value) => Ok(Instruction::Const(constant(alloc, constants, value)?)),
        Action::Local(x) => Ok(Instruction::Local(*x)),
        Action::Name(name) => Ok(Instruction::Name(pooled(names, name)?)),
        Action::Callee(name) => Ok(Instruction::Callee(pooled(names, name)?)),
        Action::Tuple(x) => Ok(Instruction::Tuple(*x)),
        Action::Unary(x) => Ok(Instruction::Unary(*x)),
        Action::Binary(x) => Ok(Instruction::Binary(*x)),
        Action::Not(x) => Ok(Instruction::Not(*x)),
        Action::Compare(x) => Ok(Instruction::Compare(*x)),
        Action::Chain(x, count) => Ok(Instruction::Chain(*x, *count)),
        Action::IsNone(x) => Ok(Instruction::IsNone(*x)),
        Action::ChainNone(x, count) => Ok(Instruction::ChainNone(*x, *count)),
        Action::Jump(x) => Ok(Instruction::Jump(*x)),
        Action::JumpUnless(x) => Ok(Instruction::JumpUnless(*x)),
        Action::Decide(x, count) => Ok(Instruction::Decide(*x, *count)),
        Action::Pop => Ok(Instruction::Pop),
        Action::Attr(name) => Ok(Instruction::Attr(pooled(names, name)?)),
        Action::Index(x) => Ok(Instruction::Index(*x)),
        Action::Call(x) => Ok(Instruction::Call(*x)),
        Action::Gather => Ok(Instruction::Gather),
        Action::Iterate => Ok(Instruction::Iterate),
        Action::NextItem(x, count) => Ok(Instruction::NextItem(*x, *count)),
        Action::BackUnless(x) => Ok(Instruction::BackUnless(*x)),
        Action::Collect(x) => Ok(Instruction::Collect(*x)),
        Action::Made => Ok(Instruction::Made),
        Action::Back(x) => Ok(Instruction::Back(*x)),
        Action::Store(x) => Ok(Instruction::Store(*x)),
        Action::Display => Ok(Instruction::Display),
        Action::Refer(name) => Ok(Instruction::Refer(pooled(names, name)?)),
        Action::Base => Ok(Instruction::Base),
        Action::ReturnDisplay => Ok(Instruction::ReturnDisplay),
        Action::Return => Ok(Instruction::Return),
        Action::Fail(x) => Ok(Instruction::Fail(*x)),
    }
}

/// The place of a value, added to the pool.
fn constant(alloc: Global, pool: &mut Items<Value>, value: &Value) -> Result<usize, AllocError>
    ensures place { IfOk result (λ place. place + 1 ≡ length pool.new) }
    ensures pool { OnOk result (pool.new ≡ pool.old ++ value.now ∷ []) }
    ensures err { OnErr result (pool.new ≡ pool.old) }
{
    let place = pool.len();
    pool.push(value.copy(alloc)?)?;
    Ok(place)
}

/// The place of a name in the pool, where it is added if it is not there.
fn pooled(pool: &mut Items<Label>, name: &Label) -> Result<usize, AllocError>
    ensures place { IfOk result
        (λ place. (place < length pool.new) × (get_or pool.new place [] ≡ name.now)) }
    ensures pool { take (length pool.old) pool.new ≡ pool.old }
{
    match position(pool.as_slice(), name) {
        Some(place) => Ok(place),
        None => {
            let place = pool.len();
            pool.push(name.copy()?)?;
            Ok(place)
        }
    }
}

/// The place of a name.
fn position(pool: &[Label], name: &Label) -> Option<usize>
    ensures { IfSome result
        (λ place. (place < length pool.now) × (get_or pool.now place [] ≡ name.now)) }
{
    for (place, other) in pool.iter().enumerate() {
        if other.same(name) {
            return Some(place);
        }
    }
    None
}
