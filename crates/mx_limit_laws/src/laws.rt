//! Laws over the definitions. Each is proved as what a function ensures that does nothing.
ghost use Rattle.mx_limit_laws.specs.Laws.{OperatorsStayWithin, RepliesAreSmall, BoundIsProper, ReachedAreProper, TextsHaveSmallResults, TablesAreSmall, TextTablesAreSmall, BeginsSmall, EditsKeepFormulasSmall, EditsKeepSmall, BeginsProper, ProperAfterEvaluation, ProperAfterEdit, ProperAfterClearing};

/// What operators and nodes give is within the limits on size and nesting, and each node that a proper node reaches is
/// proper. So held nodes stay proper, over a text with small literals, which edits with small literals keep.
pub fn laws()
    ensures operators_stay_within { OperatorsStayWithin }
    ensures replies_are_small { RepliesAreSmall }
    ensures bound_is_proper { BoundIsProper }
    ensures reached_are_proper { ReachedAreProper }
    ensures texts_have_small_results { TextsHaveSmallResults }
    ensures tables_are_small { TablesAreSmall }
    ensures text_tables_are_small { TextTablesAreSmall }
    ensures begins_small { BeginsSmall }
    ensures edits_keep_formulas_small { EditsKeepFormulasSmall }
    ensures edits_keep_small { EditsKeepSmall }
    ensures begins_proper { BeginsProper }
    ensures proper_after_evaluation { ProperAfterEvaluation }
    ensures proper_after_edit { ProperAfterEdit }
    ensures proper_after_clearing { ProperAfterClearing }
{}
