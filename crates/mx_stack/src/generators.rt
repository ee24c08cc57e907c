//! Instructions of generators.
ghost use Rattle.std.specs.Prelude.{◌≡◌, Some, IfOk, IfSome, OnOk, OnSome};
ghost use Rattle.mx_meaning.specs.Lookup.{Callee};
ghost use Rattle.mx_code.specs.declared.action.Action.TheVariants as act;
ghost use Rattle.mx_code_law.specs.States as law;
ghost use Rattle.mx_stack.specs.Callees.{callee_of};
ghost use Rattle.mx_stack.specs.Flight.{at_back, on_top, with_generator, with_slot};
ghost use Rattle.mx_stack.specs.Came.{Came, done};

use crate::callee::{Callee, decides, pop_callee, push_callee};
use crate::rest::Coming;
use crate::slot::Slot;
use crate::stack::Stack;
use crate::taking::{leave, pass, pass_with, pop_value, step_on};
use crate::tuples::make_tuple;
use crate::values::leave_made;
use crate::went::Went;
use mx_list::items::Items;
use mx_ops::truth::truth;
use mx_value::fault::FaultKind;
use mx_value::value::Value;
use std::alloc::{AllocError, Global};

/// The items that are still to come.
#[inline(always)]
fn pop_coming(stack: &mut Stack) -> Result<Coming, AllocError>
    ensures { IfOk result
        (λ vs. stack.old ≡ on_top (with_slot (law.Items vs) stack.new.top) stack.new) }
{
    match stack.pop() {
        Some(Slot::Items(coming)) => Ok(coming),
        _ => Err(AllocError),
    }
}

/// What a generator made so far.
#[inline(always)]
fn pop_collected(stack: &mut Stack) -> Result<Items<Value>, AllocError>
    ensures { IfOk result
        (λ vs. stack.old ≡ on_top (with_slot (law.Collected vs) stack.new.top) stack.new) }
{
    match stack.pop() {
        Some(Slot::Collected(made)) => Ok(made),
        _ => Err(AllocError),
    }
}

pub fn gather(alloc: Global, stack: &mut Stack) -> Went
    ensures came { Came act.Gather result stack.old.top stack.new.top }
    ensures below { OnSome (done result) (stack.new.below ≡ stack.old.below) }
{
    leave(stack, Slot::Collected(Items::new(alloc)))
}

pub fn iterate(stack: &mut Stack) -> Went
    ensures came { Came act.Iterate result stack.old.top stack.new.top }
    ensures below { OnSome (done result) (stack.new.below ≡ stack.old.below) }
{
    let Ok(value) = pop_value(stack) else {
        return Went::NoMemory;
    };
    match value {
        Value::Tup(items) => leave(stack, Slot::Items(Coming::all(items))),
        _ => Went::Faults(FaultKind::TypeMismatch),
    }
}

pub fn next_item(stack: &mut Stack, place: usize, count: usize) -> Went
    ensures came { Came (act.NextItem place count) result stack.old.top stack.new.top }
    ensures below { OnSome (done result) (stack.new.below ≡ stack.old.below) }
{
    let Ok(mut coming) = pop_coming(stack) else {
        return Went::NoMemory;
    };
    let Some(value) = coming.next() else {
        return pass(stack, count);
    };
    stack.set_local(place, value);
    leave(stack, Slot::Items(coming))
}

/// A generator under way.
#[derive(Drop)]
struct Generator {
    callee: Callee,
    made: Items<Value>,
    coming: Coming,
}

#[inline(always)]
fn pop_generator(stack: &mut Stack) -> Result<Generator, AllocError>
    ensures { IfOk result
        (λ g. stack.old
        ≡ on_top (with_generator (callee_of g.callee) g.made g.coming stack.new.top) stack.new) }
{
    let coming = pop_coming(stack)?;
    let made = pop_collected(stack)?;
    let callee = pop_callee(stack)?;
    Ok(Generator {
        callee,
        made,
        coming,
    })
}

/// The generator goes on so many instructions back.
#[inline(always)]
fn resume(stack: &mut Stack, generator: Generator, count: usize) -> Result<(), AllocError>
    ensures { OnOk result
        (stack.new
        ≡ on_top
        (at_back count
        (with_generator
        (callee_of generator.callee) generator.made generator.coming stack.old.top)) stack.old) }
{
    let Generator {
        callee,
        made,
        coming,
    } = generator;
    push_callee(stack, callee)?;
    stack.push(Slot::Collected(made))?;
    stack.push(Slot::Items(coming))?;
    stack.go_before(count);
    Ok(())
}

/// What comes of a generator that goes on so many instructions back.
#[inline(always)]
fn go_on(stack: &mut Stack, generator: Generator, count: usize) -> Went
    ensures { IfSome (done result)
        (λ r. (r ≡ Went.On)
        × (stack.new
        ≡ on_top
        (at_back count
        (with_generator
        (callee_of generator.callee) generator.made generator.coming stack.old.top)) stack.old)) }
{
    match resume(stack, generator, count) {
        Ok(()) => Went::On,
        Err(_) => Went::NoMemory,
    }
}

pub fn collect(stack: &mut Stack, count: usize) -> Went
    ensures came { Came (act.Collect count) result stack.old.top stack.new.top }
    ensures below { OnSome (done result) (stack.new.below ≡ stack.old.below) }
{
    let Ok(value) = pop_value(stack) else {
        return Went::NoMemory;
    };
    let Ok(mut generator) = pop_generator(stack) else {
        return Went::NoMemory;
    };
    let Some(decides) = decides(&generator.callee) else {
        let Ok(()) = generator.made.push(value) else {
            return Went::NoMemory;
        };
        return go_on(stack, generator, count);
    };
    match truth(&value) {
        Ok(truth) => {
            if truth == decides {
                pass_with(stack, 2, Value::Flag(decides))
            } else {
                go_on(stack, generator, count)
            }
        }
        Err(kind) => Went::Faults(kind),
    }
}

pub fn make(stack: &mut Stack) -> Went
    ensures came { Came act.Made result stack.old.top stack.new.top }
    ensures below { OnSome (done result) (stack.new.below ≡ stack.old.below) }
{
    let Ok(made) = pop_collected(stack) else {
        return Went::NoMemory;
    };
    let Ok(callee) = pop_callee(stack) else {
        return Went::NoMemory;
    };
    if let Some(decides) = decides(&callee) {
        return pass_with(stack, 1, Value::Flag(!decides));
    }
    let Ok(()) = push_callee(stack, callee) else {
        return Went::NoMemory;
    };
    leave_made(stack, make_tuple(made))
}
