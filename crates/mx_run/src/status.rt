//! The status of a run.
ghost use Rattle.mx_run.specs.Statuses.{RunsTo, outside, source, folder, sink};

use crate::script::run;
use crate::stop::Stop;
use mx_outside::{Files, Sink, Source};
use std::alloc::Global;
use std::marker::Brand;
use std::sync::ledger::Blank;

/// Runs a script among these files, and gives the status of how it ended.
pub fn run_script<S: Source, F: Files, K: Sink>(
    alloc: Global,
    script: &mut S,
    files: &mut F,
    out: &mut K,
) -> u8
    ensures { RunsTo result
        (outside (source (S.left script.old) (S.ended script.old) (S.faults script.old))
        (folder (F.held files.old) (F.read_faults files.old) (F.write_faults files.old))
        (sink (K.taken out.old) (K.faults out.old)))
        (outside (source (S.left script.new) (S.ended script.new) (S.faults script.new))
        (folder (F.held files.new) (F.read_faults files.new) (F.write_faults files.new))
        (sink (K.taken out.new) (K.faults out.new))) }
{
    match run::<S, F, K, Brand>(alloc, Blank::new(1), script, files, out) {
        Ok(()) => return 0,
        Err(Stop::ReadFault) => return 3,
        Err(Stop::FileFault) => return 3,
        Err(Stop::WriteFault) => return 4,
        Err(Stop::NoMemory) => return 5,
        Err(Stop::OverLimit) => return 6,
    }
}
