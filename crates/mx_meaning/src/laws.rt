//! Laws over the definitions. Each is proved as what a function ensures that does nothing.
ghost use Rattle.mx_meaning.specs.Laws.{InputsEndRuns, AskedIsBound, TestsAreOfAsked, OneBoundForm, BoundIsBound, ItemsGiveSpaces, CellsGiveValues, RelativeTargets, FixedTargets, ModelTargets};

/// What is owed of runs, whatever keys lead to: an input's run ends with its value, each node that is asked is its own
/// bound form, and a key that a run with a value tests is one of a node that it asks. A node has one bound form, which is
/// its own, and an item node in bound form gives the space at its address with the item. A target leads into the space
/// where the look-up was made exactly where it is not fixed and lies below the space that defines the reference.
pub fn laws()
    ensures inputs_end { InputsEndRuns }
    ensures asked_is_bound { AskedIsBound }
    ensures tests_are_covered { TestsAreOfAsked }
    ensures one_bound_form { OneBoundForm }
    ensures bound_is_bound { BoundIsBound }
    ensures items_give_spaces { ItemsGiveSpaces }
    ensures cells_give_values { CellsGiveValues }
    ensures relative_targets { RelativeTargets }
    ensures fixed_targets { FixedTargets }
    ensures model_targets { ModelTargets }
{}
