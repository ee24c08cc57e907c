//! Laws of what a command writes.
ghost use Rattle.mx_commands.specs.Laws.{OneBlock, StaysFaithful};

/// From states that are alike and faithful a command writes one block and leaves states that are
/// alike and faithful: which nodes were evaluated first makes no difference, as long as no
/// evaluation is too deep or full and memory suffices.
pub fn laws()
    ensures one_block { OneBlock }
    ensures stays_faithful { StaysFaithful }
{}
