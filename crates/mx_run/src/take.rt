//! One line after another, and the commands that they complete.
ghost use Rattle.std.specs.Prelude.{◌≡◌};
ghost use Rattle.std.specs.Option.{option_to_list};
ghost use Rattle.mx_run.specs.Script.{started, taken};
ghost use Rattle.mx_script.specs.Given.{pending_of};
ghost use Rattle.mx_commands.specs.Step.{run_state};
ghost use Rattle.mx_run.specs.Counts.{AreAfter, counts};
ghost use Rattle.mx_run.specs.Transcript.{Wrote};
ghost use Rattle.mx_run.specs.Session.{Answers, TakesLine};

use crate::answer::answer;
use crate::stop::Stop;
use mx_commands::Interpreter;
use mx_frames::steps::Steps;
use mx_outside::{Files, Sink};
use mx_script::commands::{Pending, continued};
use mx_script::line::{blank, continues, strip_cr};
use mx_words::table::{WORDS, takes_lines};
use mx_words::text::strip_spaces;
use std::sync::ledger::Ledger;

/// Takes a line that goes on with nothing before it.
fn start_line<F: Files, K: Sink, L: Ledger>(
    interpreter: &mut Interpreter,
    number: u64,
    line: &[u8],
    steps: &mut Steps<L>,
    files: &mut F,
    out: &mut K,
) -> Result<Option<Pending>, Stop>
    ensures output { let next = started number line.now in
        Wrote (K.taken out.old) (K.taken out.new)
        (TakesLine (run_state interpreter.old.engine (F.held files.old)) next result
        (run_state interpreter.new.engine (F.held files.new))) }
    ensures held { F.held files.new ≡ F.held files.old }
    ensures counted { AreAfter result
        (counts (K.faults out.old) (F.read_faults files.old) (F.write_faults files.old))
        (counts (K.faults out.new) (F.read_faults files.new) (F.write_faults files.new)) }
{
    let text = strip_spaces(line);
    if blank(text) {
        return Ok(None);
    }
    if takes_lines(&WORDS, text) {
        let Ok(text) = Vec::from_slice(interpreter.alloc, line) else {
            return Err(Stop::NoMemory);
        };
        return Ok(Some(Pending { number, text }));
    }
    match answer(interpreter, number, line, steps, files, out) {
        Ok(()) => return Ok(None),
        Err(failure) => return Err(failure),
    }
}

/// Takes a whole line, with the command before it that may go on: answers the commands that it
/// completes, and gives the one that may go on after it.
pub fn take_line<F: Files, K: Sink, L: Ledger>(
    interpreter: &mut Interpreter,
    pending: Option<Pending>,
    number: u64,
    line: &[u8],
    steps: &mut Steps<L>,
    files: &mut F,
    out: &mut K,
) -> Result<Option<Pending>, Stop>
    ensures output { let next = taken number (pending_of pending) line.now in
        Wrote (K.taken out.old) (K.taken out.new)
        (TakesLine (run_state interpreter.old.engine (F.held files.old)) next result
        (run_state interpreter.new.engine (F.held files.new))) }
    ensures held { F.held files.new ≡ F.held files.old }
    ensures counted { AreAfter result
        (counts (K.faults out.old) (F.read_faults files.old) (F.write_faults files.old))
        (counts (K.faults out.new) (F.read_faults files.new) (F.write_faults files.new)) }
{
    let line = strip_cr(line);
    let Some(command) = pending else {
        return start_line(interpreter, number, line, steps, files, out);
    };
    if continues(line) {
        let Ok(command) = continued(command, line) else {
            return Err(Stop::NoMemory);
        };
        return Ok(Some(command));
    }
    match answer(
        interpreter,
        command.number,
        &command.text,
        steps,
        files,
        out,
    ) {
        Ok(()) => return start_line(interpreter, number, line, steps, files, out),
        Err(failure) => return Err(failure),
    }
}

/// Answers the command that could have gone on.
pub fn finish_commands<F: Files, K: Sink, L: Ledger>(
    interpreter: &mut Interpreter,
    pending: Option<Pending>,
    steps: &mut Steps<L>,
    files: &mut F,
    out: &mut K,
) -> Result<(), Stop>
    ensures output { let last = option_to_list (pending_of pending) in
        Wrote (K.taken out.old) (K.taken out.new)
        (Answers (run_state interpreter.old.engine (F.held files.old)) last result
        (run_state interpreter.new.engine (F.held files.new))) }
    ensures held { F.held files.new ≡ F.held files.old }
    ensures counted { AreAfter result
        (counts (K.faults out.old) (F.read_faults files.old) (F.write_faults files.old))
        (counts (K.faults out.new) (F.read_faults files.new) (F.write_faults files.new)) }
{
    let Some(command) = pending else {
        return Ok(());
    };
    match answer(
        interpreter,
        command.number,
        &command.text,
        steps,
        files,
        out,
    ) {
        Ok(()) => return Ok(()),
        Err(failure) => return Err(failure),
    }
}
