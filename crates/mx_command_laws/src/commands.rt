//! A law over the definitions. It is proved as what a function ensures that does nothing.
ghost use Rattle.mx_command_laws.specs.Commands.{CommandsAreProper};

/// A command that a text says has small literals where it is an edit, and a proper node where it is an evaluation.
pub fn laws()
    ensures { CommandsAreProper }
{}
