//! Worked examples, as theorems over the meaning of nodes.
ghost use Rattle.mx_formula_examples.specs.Rows.{ReferenceAlone, ParameterHides, ParameterIsNoKey, RelativeTarget, FixedTarget, FormulaAtHome, FormulaTakenOver, TableEntry, BaseGivesCells, ReferencesAreAdded};
ghost use Rattle.mx_formula_examples.specs.FurtherRows.{Circle, CircleMeansNothing, Mended, ItemCircle, Chosen, TargetAtHome, TargetTakenOver, NoNameFound, CellsTargeted, ItemIsBound};
ghost use Rattle.mx_formula_examples.specs.LoopRows.{Looped, Summed, DecidedEarly, FaultAtLine3, NoneIsAFault, NoneIsAllowed, BadBase, NoSuchItem, WrongItemCount};

/// What some nodes of small texts mean. Does nothing when it runs.
pub fn rows()
    ensures reference_alone { ReferenceAlone }
    ensures parameter_hides { ParameterHides }
    ensures parameter_is_no_key { ParameterIsNoKey }
    ensures relative_target { RelativeTarget }
    ensures fixed_target { FixedTarget }
    ensures formula_at_home { FormulaAtHome }
    ensures formula_taken_over { FormulaTakenOver }
    ensures table_entry { TableEntry }
    ensures base_gives_cells { BaseGivesCells }
    ensures references_are_added { ReferencesAreAdded }
    ensures circle { Circle }
    ensures circle_means_nothing { CircleMeansNothing }
    ensures mended { Mended }
    ensures item_circle { ItemCircle }
    ensures chosen { Chosen }
    ensures target_at_home { TargetAtHome }
    ensures target_taken_over { TargetTakenOver }
    ensures no_name_found { NoNameFound }
    ensures cells_targeted { CellsTargeted }
    ensures item_is_bound { ItemIsBound }
    ensures looped { Looped }
    ensures summed { Summed }
    ensures decided_early { DecidedEarly }
    ensures fault_at_line_3 { FaultAtLine3 }
    ensures none_is_a_fault { NoneIsAFault }
    ensures none_is_allowed { NoneIsAllowed }
    ensures bad_base { BadBase }
    ensures no_such_item { NoSuchItem }
    ensures wrong_item_count { WrongItemCount }
{}
