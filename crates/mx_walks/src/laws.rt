//! Laws over the definitions. Each is proved as what a function ensures that does nothing.
ghost use Rattle.mx_walks.specs.Laws.{InstructionWalks, RunWalks, RunWalksOn};

/// Where the walk of an address leads is a function of what answers its tests: an instruction goes
/// on as it says, and so does the meaning's own run, from the top and behind an answer.
pub fn laws()
    ensures instructions { InstructionWalks }
    ensures runs { RunWalks }
    ensures runs_on { RunWalksOn }
{}
