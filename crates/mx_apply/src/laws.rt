//! Laws of the definitions.
ghost use Rattle.mx_model.specs.Records.{beginning};
ghost use Rattle.mx_apply.specs.Chain.{CanGoOn, ValidGoesOn};

/// Edits can follow one another from the text that a model begins with, and from any valid text, for proofs. Does nothing
/// when it runs.
pub fn chain_laws()
    ensures first { CanGoOn beginning }
    ensures valid { ValidGoesOn }
{}
