//! The instructions that look nothing up and do not end the run with a value.
ghost use Rattle.std.specs.Prelude.{◌≡◌, OnSome};
ghost use Rattle.mx_code.specs.Told.{told_action};
ghost use Rattle.mx_interpreter.specs.Plain.{IsPlain};
ghost use Rattle.mx_stack.specs.Came.{Came, done};

use mx_code::code::{Code, Instruction};
use mx_stack::displays::{display, refer, set_base};
use mx_stack::generators::{collect, gather, iterate, make, next_item};
use mx_stack::jumps::{back_unless, decide, jump, jump_back, jump_unless};
use mx_stack::operators::{binary, compare_last, compare_on, negate, unary};
use mx_stack::stack::Stack;
use mx_stack::values::{constant, drop_value, local, none_last, none_on, store, tuple};
use mx_stack::went::Went;
use std::alloc::Global;

/// What comes of an instruction of a code that looks nothing up and does not end the run with a
/// value.
#[inline(always)]
pub fn run_plain(alloc: Global, code: &Code, stack: &mut Stack, instruction: &Instruction) -> Went
    requires { IsPlain instruction.now }
    ensures came { Came (told_action code.now.constants code.now.names instruction.now) result
        stack.old.top stack.new.top }
    ensures below { OnSome (done result) (stack.new.below ≡ stack.old.below) }
{
    match instruction {
        Instruction::Const(place) => constant(alloc, code, stack, *place),
        Instruction::Local(place) => local(alloc, stack, *place),
        Instruction::LocalWith(place) => local(alloc, stack, *place),
        Instruction::LocalTest(place) => local(alloc, stack, *place),
        Instruction::Tuple(count) => tuple(alloc, stack, *count),
        Instruction::Unary(op) => unary(alloc, stack, *op),
        Instruction::Binary(op) => binary(alloc, stack, *op),
        Instruction::Not(count) => negate(alloc, stack, *count),
        Instruction::Compare(op) => compare_last(alloc, stack, *op),
        Instruction::CompareJump(op) => compare_last(alloc, stack, *op),
        Instruction::Chain(op, count) => compare_on(alloc, stack, *op, *count),
        Instruction::IsNone(asked) => none_last(stack, *asked),
        Instruction::ChainNone(asked, count) => none_on(stack, *asked, *count),
        Instruction::Jump(count) => jump(stack, *count),
        Instruction::JumpUnless(count) => jump_unless(stack, *count),
        Instruction::Decide(decides, count) => decide(stack, *decides, *count),
        Instruction::Pop => drop_value(stack),
        Instruction::Store(place) => store(stack, *place),
        Instruction::Fail(kind) => Went::Faults(*kind),
        Instruction::Gather => gather(alloc, stack),
        Instruction::Iterate => iterate(stack),
        Instruction::NextItem(place, count) => next_item(stack, *place, *count),
        Instruction::BackUnless(count) => back_unless(stack, *count),
        Instruction::Collect(count) => collect(stack, *count),
        Instruction::Made => make(stack),
        Instruction::Back(count) => jump_back(stack, *count),
        Instruction::Display => display(alloc, stack),
        Instruction::Refer(place) => refer(code, stack, *place),
        Instruction::Base => set_base(alloc, stack),
        _ => unreachable!(),
    }
}
