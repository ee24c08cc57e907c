//! What the top call promises where nothing outside can fail.
ghost use Rattle.std.specs.Prelude.{◌≡◌, ◌⊎◌};
ghost use Rattle.mx_run.specs.Transcript.{IsWithin};
ghost use Rattle.mx_cli.specs.Top.{IsRun, HasAll};

use crate::mx_top;
use mx_outside::{Files, Sink, SureFiles, SureSink, SureSource};
use std::alloc::Global;

/// Answers a script in memory by the word `run`, among files in memory. Of a script within the
/// limits the status is 0, with all of its answers, or 5 for want of memory.
pub fn answer_script(
    alloc: Global,
    words: &Vec<String>,
    script: Vec<u8>,
    files: &mut SureFiles,
    out: &mut SureSink,
) -> u8
    requires asked { IsRun words.now.items }
    ensures whole { let taken = ⟦<SureSink as Sink>⟧.taken in let held = ⟦<SureFiles as Files>⟧.held in
        result ≡ 0 →
        HasAll script.items (held files.old) (held files.new) (taken out.old) (taken out.new) }
    ensures complete { let taken = ⟦<SureSink as Sink>⟧.taken in
        let held = ⟦<SureFiles as Files>⟧.held in
        let all = HasAll script.items (held files.old) (held files.new) (taken out.old)
        (taken out.new) in
        IsWithin script.items → ((result ≡ 0) × all) ⊎ (result ≡ 5) }
{
    let mut source = SureSource::new(script);
    mx_top(alloc, words, &mut source, files, out)
}
