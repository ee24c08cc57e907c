//! The top call: words, a script, files and an output to a status.
ghost use Rattle.std.specs.Prelude.{◌≡◌, ◌↔◌, IsTrue};
ghost use Rattle.mx_run.specs.Statuses.{outside, source, folder, sink};
ghost use Rattle.mx_cli.specs.Top.{IsRun, HasAnswered};

use mx_outside::{Files, Sink, Source, WriteFailure, write_whole};
use mx_run::run_script;
use std::alloc::Global;

fn is_run(words: &Vec<String>) -> bool
    ensures { IsTrue result ↔ IsRun words.now.items }
{
    words.len() == 1 && words[0].as_str() == "run"
}

/// All that the program does: from its words, its input, the files below its folder and its output
/// to its status. By the word `run` it answers a script: 0 after all of it, 3 where a read of the
/// script or of a file failed, 4 where a write failed, 5 for want of memory, 6 where a line or the
/// script passed its limit. Other words are refused with 2.
pub fn mx_top<S: Source, F: Files, K: Sink>(
    alloc: Global,
    words: &Vec<String>,
    script: &mut S,
    files: &mut F,
    out: &mut K,
) -> u8
    ensures answered { HasAnswered words.now.items result
        (outside (source (S.left script.old) (S.ended script.old) (S.faults script.old))
        (folder (F.held files.old) (F.read_faults files.old) (F.write_faults files.old))
        (sink (K.taken out.old) (K.faults out.old)))
        (outside (source (S.left script.new) (S.ended script.new) (S.faults script.new))
        (folder (F.held files.new) (F.read_faults files.new) (F.write_faults files.new))
        (sink (K.taken out.new) (K.faults out.new))) }
    ensures unread { (IsRun words.now.items → ⊥) → script.new ≡ script.old }
    ensures unchanged { (IsRun words.now.items → ⊥) → files.new ≡ files.old }
{
    if is_run(words) {
        return run_script(alloc, script, files, out);
    }
    match write_whole(out, b"usage: mx MODE ARGUMENTS\n") {
        Ok(()) => return 2,
        Err(WriteFailure::Failed) => return 4,
        Err(WriteFailure::NoMemory) => return 5,
    }
}
