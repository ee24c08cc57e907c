//! What holds of the commands of every script.

ghost use Rattle.std.specs.Prelude.{ℕ, List};
ghost use Rattle.mx_script.specs.Script.{commands, complete_commands};
ghost use Rattle.mx_script.specs.ByLines.{Words, Says, SaysNoOther, SaysSoFar};

/// The commands of a script are what its lines say, and nothing else is. Those that are complete in bytes that may go on are what the
/// whole lines of these say, but for a last one that may go on.
pub fn commands_by_lines()
    ensures are { (words : Words) (script : List ℕ) → Says words script (commands words script) }
    ensures only { (words : Words) (script : List ℕ)
        → SaysNoOther words script (commands words script) }
    ensures complete { (words : Words) (read : List ℕ)
        → SaysSoFar words read (complete_commands words read) }
{}
