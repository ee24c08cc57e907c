//! The law over the definitions. It is proved as what a function ensures that does nothing.
ghost use Rattle.mx_command_laws.specs.Edits.{EditsAreRead};

/// Each edit that the text of a command says is one that was read: where it defines cells, the defaults of their parameters
/// are plain and nested no deeper than a value may be.
pub fn laws()
    ensures edits_are_read { EditsAreRead }
{}
