//! Laws over what is seen of a memo. Each is proved as what a function ensures that does nothing.
ghost use Rattle.mx_memo.specs.Restoring.{Restores};

/// A roll-back to a stamp restores what was held then.
pub fn laws()
    ensures { Restores }
{}
