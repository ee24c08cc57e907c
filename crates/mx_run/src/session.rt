//! A script as it is read: each command is answered as soon as it is complete.
ghost use Rattle.std.specs.Prelude.{◌≡◌, ◌≤◌, ◌++◌, ◌∷◌, [], ℕ, List, Option, IfOk, IfErr};
ghost use Rattle.mx_outside.specs.Files.{FileMap};
ghost use Rattle.mx_run.specs.Counts.{AreAfter, counts, CanStopInside};
ghost use Rattle.mx_script.specs.Script.{HasNoLf};
ghost use Rattle.mx_run.specs.Transcript.{Wrote};

use crate::stop::Stop;
use crate::take::{finish_commands, take_line};
use mx_commands::Interpreter;
use mx_frames::steps::Steps;
use mx_outside::{Files, Sink};
use mx_script::Pending;
use mx_script::line::line_end;
use std::alloc::{AllocError, Global};
use std::sync::ledger::Ledger;

/// The greatest number of bytes in a line, its CR counted.
pub const MAX_LINE: usize = 65_536;

/// The greatest number of bytes in a script.
pub const MAX_SCRIPT: usize = 16_777_216;

/// What is kept of the bytes read so far: the open line, the command that may go on, and the
/// engine.
#[derive(Drop)]
pub struct Session {
    pub line: Vec<u8>,
    pub lines: u64,
    pub size: usize,
    pub pending: Option<Pending>,
    pub interpreter: Interpreter,
    ghost counted: { lines ≤ size },
    ghost small: { size ≤ 16777216 },
}

impl Session {
    ghost use Rattle.mx_run.specs.At.{At, GoesOn, Finishes};

    /// A session that has read nothing.
    pub fn new(alloc: Global) -> Result<Session, AllocError>
        ensures { IfOk result (λ s. (first : Option FileMap) → At first first s [] []) }
    {
        Ok(Session {
            line: Vec::new(alloc),
            lines: 0,
            size: 0,
            pending: None,
            interpreter: Interpreter::new(alloc)?,
        })
    }

    /// Takes bytes of the open line.
    fn lengthen(&mut self, bytes: &[u8]) -> Result<(), Stop>
        ensures output { (first : Option FileMap) (now : Option FileMap) (read : List ℕ)
            (written : List ℕ) → HasNoLf bytes.now → At first now self.old read written →
            GoesOn first now self.new result (read ++ bytes.now) written }
        ensures stop { IfErr result CanStopInside }
    {
        let count = bytes.len();
        let room = MAX_LINE
            .saturating_sub(self.line.len())
            .min(MAX_SCRIPT - self.size);
        if count > room {
            return Err(Stop::OverLimit);
        }
        if self.line.extend_from_slice(bytes).is_err() {
            return Err(Stop::NoMemory);
        }
        self.size += count;
        return Ok(());
    }

    /// Takes the LF that ends the open line.
    fn end_line<F: Files, K: Sink, L: Ledger>(
        &mut self,
        steps: &mut Steps<L>,
        files: &mut F,
        out: &mut K,
    ) -> Result<(), Stop>
        ensures output { (first : Option FileMap) (read : List ℕ) (written : List ℕ) →
            At first (F.held files.old) self.old read written →
            Wrote (K.taken out.old) (K.taken out.new) (λ block. GoesOn first (F.held files.new)
            self.new result (read ++ 10 ∷ []) (written ++ block)) }
        ensures held { F.held files.new ≡ F.held files.old }
        ensures counted { AreAfter result
            (counts (K.faults out.old) (F.read_faults files.old) (F.write_faults files.old))
            (counts (K.faults out.new) (F.read_faults files.new) (F.write_faults files.new)) }
    {
        if self.size >= MAX_SCRIPT {
            return Err(Stop::OverLimit);
        }
        let pending = self.pending.take();
        match take_line(
            &mut self.interpreter,
            pending,
            self.lines + 1,
            &self.line,
            steps,
            files,
            out,
        ) {
            Ok(pending) => {
                self.pending = pending;
                self.line.clear();
                self.size += 1;
                self.lines += 1;
                return Ok(());
            }
            Err(stop) => return Err(stop),
        }
    }

    /// Takes the next bytes of the script.
    pub fn feed<F: Files, K: Sink, L: Ledger>(
        &mut self,
        piece: &[u8],
        steps: &mut Steps<L>,
        files: &mut F,
        out: &mut K,
    ) -> Result<(), Stop>
        ensures output { (first : Option FileMap) (read : List ℕ) (written : List ℕ) →
            At first (F.held files.old) self.old read written →
            Wrote (K.taken out.old) (K.taken out.new) (λ block. GoesOn first (F.held files.new)
            self.new result (read ++ piece.now) (written ++ block)) }
        ensures held { F.held files.new ≡ F.held files.old }
        ensures counted { AreAfter result
            (counts (K.faults out.old) (F.read_faults files.old) (F.write_faults files.old))
            (counts (K.faults out.new) (F.read_faults files.new) (F.write_faults files.new)) }
    {
        let mut rest = piece;
        'lines: while let Some(end) = line_end(rest) {
            if let Err(stop) = self.lengthen(&rest[..end]) {
                return Err(stop);
            }
            if let Err(stop) = self.end_line(steps, files, out) {
                return Err(stop);
            }
            rest = &rest[end + 1..];
        }
        return self.lengthen(rest);
    }

    /// Answers what is left at the script's end.
    pub fn finish<F: Files, K: Sink, L: Ledger>(
        &mut self,
        steps: &mut Steps<L>,
        files: &mut F,
        out: &mut K,
    ) -> Result<(), Stop>
        ensures output { (first : Option FileMap) (read : List ℕ) (written : List ℕ) →
            At first (F.held files.old) self.old read written →
            Wrote (K.taken out.old) (K.taken out.new) (λ block. Finishes first (F.held files.new)
            result read (written ++ block)) }
        ensures held { F.held files.new ≡ F.held files.old }
        ensures counted { AreAfter result
            (counts (K.faults out.old) (F.read_faults files.old) (F.write_faults files.old))
            (counts (K.faults out.new) (F.read_faults files.new) (F.write_faults files.new)) }
    {
        let pending = self.pending.take();
        if self.line.is_empty() {
            return finish_commands(&mut self.interpreter, pending, steps, files, out);
        }
        match take_line(
            &mut self.interpreter,
            pending,
            self.lines + 1,
            &self.line,
            steps,
            files,
            out,
        ) {
            Ok(pending) => return finish_commands(
                &mut self.interpreter,
                pending,
                steps,
                files,
                out,
            ),
            Err(stop) => return Err(stop),
        }
    }
}
