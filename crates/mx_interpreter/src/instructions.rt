//! The instructions of a code that look something up or end a run with a value.
ghost use Rattle.std.specs.Prelude.{◌≡◌, [], Some, get_or, slice_get, IfOk};
ghost use Rattle.mx_code.specs.Told.{told, told_action};

use mx_code::action::{Action, Instr};
use mx_code::code::{Code, Instruction};
use mx_value::label::Label;
use std::alloc::AllocError;

/// The instruction at a place of a code that looks something up or ends the run with a value.
pub fn instruction_at(code: &Code, place: usize) -> Result<Instr, AllocError>
    ensures { IfOk result (λ i. slice_get (told code.now) place ≡ Some i) }
{
    let Some(instruction) = code.instructions.get(place) else {
        return Err(AllocError);
    };
    let Some(line) = code.lines.get(place) else {
        return Err(AllocError);
    };
    let action = action_of(code, instruction)?;
    return Ok(Instr {
        action,
        line: *line,
    });
}

/// What such an instruction does, with the name in its place.
fn action_of(code: &Code, instruction: &Instruction) -> Result<Action, AllocError>
    ensures { IfOk result (λ a. a ≡ told_action code.now.constants code.now.names instruction.now) }
{
    match instruction {
        Instruction::Name(place) => return Ok(Action::Name(name_at(code, *place)?)),
        Instruction::Callee(place) => return Ok(Action::Callee(name_at(code, *place)?)),
        Instruction::Attr(place) => return Ok(Action::Attr(name_at(code, *place)?)),
        Instruction::Index(count) => return Ok(Action::Index(*count)),
        Instruction::Call(count) => return Ok(Action::Call(*count)),
        Instruction::ReturnDisplay => return Ok(Action::ReturnDisplay),
        Instruction::Return => return Ok(Action::Return),
        _ => return Err(AllocError),
    }
}

/// The name at a place of a code.
fn name_at(code: &Code, place: usize) -> Result<Label, AllocError>
    ensures { IfOk result (λ name. name ≡ get_or code.now.names place []) }
{
    match code.names.get(place) {
        Some(name) => return name.copy(),
        None => return Err(AllocError),
    }
}
