//! Laws of the lines and commands of a script, and of what they write.
ghost use Rattle.std.specs.Prelude.{◌++◌, ℕ, List};
ghost use Rattle.mx_commands.specs.Laws.{OneBlock};
ghost use Rattle.mx_run.specs.Laws.{OneOutput, OneTranscript};
ghost use Rattle.mx_run.specs.Script.{complete_commands, commands};
ghost use Rattle.mx_script.specs.Script.{split_lines, AreLines, GrowsTo};

/// The lines of a script, with an LF behind each, give the script back, and no LF stands in one.
pub fn lines_give_the_script()
    ensures { (script : List ℕ) → AreLines script (split_lines script) }
{}

/// Commands that are complete stay so, whatever follows, and are the first of the whole script's.
pub fn complete_commands_stay()
    ensures more { (read : List ℕ) (more : List ℕ) →
        GrowsTo (complete_commands read) (complete_commands (read ++ more)) }
    ensures whole { (read : List ℕ) → GrowsTo (complete_commands read) (commands read) }
{}

/// From one state each command has one block, each list of commands one output, and so has a
/// script, as long as no evaluation is too deep or full and memory suffices: which nodes are run
/// first makes no difference.
pub fn commands_have_one_output()
    ensures block { OneBlock }
    ensures output { OneOutput }
    ensures transcript { OneTranscript }
{}
