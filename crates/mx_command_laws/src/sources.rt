//! Laws over the definitions. Each is proved as what a function ensures that does nothing.
ghost use Rattle.mx_command_laws.specs.Sources.{FormulasAreSmall, ParamsAreSmall, NodesAreProper};

/// A formula or parameter list that a source spells has small literals, and a node that a source spells is proper.
pub fn laws()
    ensures formulas_are_small { FormulasAreSmall }
    ensures params_are_small { ParamsAreSmall }
    ensures nodes_are_proper { NodesAreProper }
{}
