//! Laws of the definitions.
ghost use Rattle.mx_world.specs.Laws.{BeginningIsValid, BeginningIsNamed};

/// The text of a new model is valid, for proofs. Does nothing when it runs.
pub fn beginning_laws()
    ensures valid { BeginningIsValid }
    ensures named { BeginningIsNamed }
{}
