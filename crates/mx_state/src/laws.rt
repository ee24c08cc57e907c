//! Laws over the definitions. Each is proved as what a function ensures that does nothing.
ghost use Rattle.mx_state.specs.Laws.{TextsHaveRuns, OneBoundForm, OneIsAsked, OneBoundAnswer, BoundIsBound, ValueBinds, BoundIsThere, HeldIsAsked, EachBindsBehind, StaticComes, CellsBind, ItemBinds, LostBindsNone, EndBindsNone, BoundWalksAlike, BeginsRight, RightWithLimit, RightAfterEvaluation, RightAfterEdit, RightAfterClearing, KeysDecide, OneAnswer, OneStep, ValueIsAnswered, EvaluatesAs, ValueTicks, OnePrecedents, PrecedentsAs};

/// A node has one bound form, which is its own and whose space is there: it is known behind the walk of its address, which
/// goes as that of the node, and there is none where the walk comes to a node without a value or ends. A right state is right after an evaluation, an
/// edit and a clearing, which hold exactly what they should. Answers, steps and precedents are one.
pub fn laws()
    ensures texts_have_runs { TextsHaveRuns }
    ensures one_bound_form { OneBoundForm }
    ensures one_is_asked { OneIsAsked }
    ensures one_bound_answer { OneBoundAnswer }
    ensures bound_is_bound { BoundIsBound }
    ensures value_binds { ValueBinds }
    ensures bound_is_there { BoundIsThere }
    ensures held_is_asked { HeldIsAsked }
    ensures each_binds_behind { EachBindsBehind }
    ensures static_comes { StaticComes }
    ensures cells_bind { CellsBind }
    ensures item_binds { ItemBinds }
    ensures lost_binds_none { LostBindsNone }
    ensures end_binds_none { EndBindsNone }
    ensures bound_walks_alike { BoundWalksAlike }
    ensures begins_right { BeginsRight }
    ensures right_with_limit { RightWithLimit }
    ensures right_after_evaluation { RightAfterEvaluation }
    ensures right_after_edit { RightAfterEdit }
    ensures right_after_clearing { RightAfterClearing }
    ensures keys_decide { KeysDecide }
    ensures one_answer { OneAnswer }
    ensures one_step { OneStep }
    ensures value_is_answered { ValueIsAnswered }
    ensures evaluates_as { EvaluatesAs }
    ensures value_ticks { ValueTicks }
    ensures one_precedents { OnePrecedents }
    ensures precedents_as { PrecedentsAs }
{}
