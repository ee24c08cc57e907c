//! The answer to one command.
ghost use Rattle.std.specs.Prelude.{◌≡◌, ◌∷◌, []};
ghost use Rattle.mx_commands.specs.Step.{command_at, run_state};
ghost use Rattle.mx_run.specs.Counts.{AreAfter, counts};
ghost use Rattle.mx_run.specs.Session.{Answers};
ghost use Rattle.mx_run.specs.Transcript.{Wrote};

use crate::stop::{Stop, stop_of, stop_of_file};
use mx_commands::Interpreter;
use mx_frames::steps::Steps;
use mx_outside::{Files, Sink, write_whole};
use std::sync::ledger::Ledger;

/// Answers a command, which begins in this line of the script: its block is one piece.
pub fn answer<F: Files, K: Sink, L: Ledger>(
    interpreter: &mut Interpreter,
    number: u64,
    text: &[u8],
    steps: &mut Steps<L>,
    files: &mut F,
    out: &mut K,
) -> Result<(), Stop>
    ensures output { let command = command_at number text.now in
        Wrote (K.taken out.old) (K.taken out.new)
        (Answers (run_state interpreter.old.engine (F.held files.old)) (command ∷ []) result
        (run_state interpreter.new.engine (F.held files.new))) }
    ensures held { F.held files.new ≡ F.held files.old }
    ensures counted { AreAfter result
        (counts (K.faults out.old) (F.read_faults files.old) (F.write_faults files.old))
        (counts (K.faults out.new) (F.read_faults files.new) (F.write_faults files.new)) }
{
    if let Err(failure) = interpreter.answer(number, text, files, steps) {
        return Err(stop_of_file(failure));
    }
    if let Err(failure) = write_whole(out, &interpreter.block) {
        return Err(stop_of(failure));
    }
    return Ok(());
}
