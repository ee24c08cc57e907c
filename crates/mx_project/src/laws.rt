//! Laws of the definitions, for proofs. They do nothing when they run.
ghost use Rattle.mx_project.specs.Laws.{FaultsLeaveKnown, ReadsAreNamed, ReadsAreSmall};

/// The spaces of a model that a folder says have names, and its literals are small.
pub fn read_laws()
    ensures named { ReadsAreNamed }
    ensures small { ReadsAreSmall }
{}

/// Where a write failed, each told file but one is as it was or whole.
pub fn write_laws()
    ensures { FaultsLeaveKnown }
{}
