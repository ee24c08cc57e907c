//! A script from its source to its sink.
ghost use Rattle.std.specs.Prelude.{◌≡◌, ◌<◌, [], Option};
ghost use Rattle.mx_outside.specs.Files.{FileMap};
ghost use Rattle.mx_run.specs.At.{At};
ghost use Rattle.mx_run.specs.Statuses.{HasRun, outside, source, folder, sink};

use crate::session::Session;
use crate::stop::Stop;
use mx_frames::steps::Steps;
use mx_outside::{Files, Sink, Source};
use std::alloc::Global;
use std::mem;
use std::sync::ledger::{Blank, Ledger};

/// The number of bytes that one read may give.
const BUFFER: usize = 16_384;

/// Reads a script to its end, and writes one block for each command, as soon as it is complete. Its
/// commands read and write these files.
pub fn run<S: Source, F: Files, K: Sink, L: Ledger>(
    alloc: Global,
    blank: Blank,
    script: &mut S,
    files: &mut F,
    out: &mut K,
) -> Result<(), Stop>
    requires name { blank.name ≡ L.name }
    requires parts { blank.parts ≡ L.parts }
    requires some { 0 < blank.parts }
    ensures { HasRun result
        (outside (source (S.left script.old) (S.ended script.old) (S.faults script.old))
        (folder (F.held files.old) (F.read_faults files.old) (F.write_faults files.old))
        (sink (K.taken out.old) (K.faults out.old)))
        (outside (source (S.left script.new) (S.ended script.new) (S.faults script.new))
        (folder (F.held files.new) (F.read_faults files.new) (F.write_faults files.new))
        (sink (K.taken out.new) (K.faults out.new))) }
{
    let mut steps = Steps::<L>::new(blank);
    let Ok(mut session) = Session::new(alloc) else {
        return Err(Stop::NoMemory);
    };
    let ended = read_script(&mut session, script, &mut steps, files, out);
    // What is left of the session goes with the program: nothing of it is given back piece by piece.
    mem::forget(session);
    return ended;
}

/// The same, by a session that has read nothing.
fn read_script<S: Source, F: Files, K: Sink, L: Ledger>(
    session: &mut Session,
    script: &mut S,
    steps: &mut Steps<L>,
    files: &mut F,
    out: &mut K,
) -> Result<(), Stop>
    requires { (first : Option FileMap) → At first first session.old [] [] }
    ensures { HasRun result
        (outside (source (S.left script.old) (S.ended script.old) (S.faults script.old))
        (folder (F.held files.old) (F.read_faults files.old) (F.write_faults files.old))
        (sink (K.taken out.old) (K.faults out.old)))
        (outside (source (S.left script.new) (S.ended script.new) (S.faults script.new))
        (folder (F.held files.new) (F.read_faults files.new) (F.write_faults files.new))
        (sink (K.taken out.new) (K.faults out.new))) }
{
    let mut buffer = [0u8; BUFFER];
    'reads: loop {
        let count = match script.read(&mut buffer) {
            Ok(count) => count,
            Err(_) => return Err(Stop::ReadFault),
        };
        if count == 0 {
            match session.finish(steps, files, out) {
                Ok(()) => return Ok(()),
                Err(stop) => return Err(stop),
            }
        }
        if let Err(stop) = session.feed(&buffer[..count], steps, files, out) {
            return Err(stop);
        }
    }
}
