//! What nodes mean over texts that edits make. Each is proved as what a function ensures that does nothing.
ghost use Rattle.mx_state_examples.specs.Rows.{ParameterHidesReference, ReferenceOutside, ItemsMultiply, ItemIsRead, WholeDecimalIsBound, NoParameterOutside, TooManyArguments, NoInputInItem, ChoiceTakesOne, ChoiceReadsOne, FormulaLooksWhereItRuns, TakenOverReads, FixedTargetStays, NoNameAbove, ReferenceToCells, NoSpaceNoNode, BaseGivesSource, BaseGivesCells, AddedReference, NoAddedReference, WrongBase, ReferenceOverParameter, ParameterIsReplaced, ModelReferenceIsFound, DefaultIsBound, DefaultIsAsked, InputIsBound, InputIsAsked};

/// The worked examples: a parameter that hides a reference, items of a space with a parameter, a choice, a formula that is
/// taken over, names that are not sought above, items with a base, a display that replaces a parameter, a reference of the
/// model, a default and an input.
pub fn rows()
    ensures parameter_hides { ParameterHidesReference }
    ensures reference_outside { ReferenceOutside }
    ensures items_multiply { ItemsMultiply }
    ensures item_is_read { ItemIsRead }
    ensures whole_decimal_is_bound { WholeDecimalIsBound }
    ensures no_parameter_outside { NoParameterOutside }
    ensures too_many_arguments { TooManyArguments }
    ensures no_input_in_item { NoInputInItem }
    ensures choice_takes_one { ChoiceTakesOne }
    ensures choice_reads_one { ChoiceReadsOne }
    ensures formula_looks_where_it_runs { FormulaLooksWhereItRuns }
    ensures taken_over_reads { TakenOverReads }
    ensures fixed_target_stays { FixedTargetStays }
    ensures no_name_above { NoNameAbove }
    ensures reference_to_cells { ReferenceToCells }
    ensures no_space_no_node { NoSpaceNoNode }
    ensures base_gives_source { BaseGivesSource }
    ensures base_gives_cells { BaseGivesCells }
    ensures added_reference { AddedReference }
    ensures no_added_reference { NoAddedReference }
    ensures wrong_base { WrongBase }
    ensures reference_over_parameter { ReferenceOverParameter }
    ensures parameter_is_replaced { ParameterIsReplaced }
    ensures model_reference_is_found { ModelReferenceIsFound }
    ensures default_is_bound { DefaultIsBound }
    ensures default_is_asked { DefaultIsAsked }
    ensures input_is_bound { InputIsBound }
    ensures input_is_asked { InputIsAsked }
{}
