//! What evaluations answer and hold. Each is proved as what a function ensures that does nothing.
ghost use Rattle.mx_state_examples.specs.Evaluations.{ItemsAreEvaluated, ChoiceIsEvaluated, ChoiceHasPrecedents, TakenOverIsEvaluated, TakenOverHasPrecedents, FixedTargetIsEvaluated, FaultIsEvaluated, RingIsEvaluated, MendedIsEvaluated, ItemRingIsEvaluated, AskedIsTooDeep, NoValueSoDeep, TwoAreNotTooDeep, HeldIsNotTooDeep, DefaultIsEvaluated, InputIsEvaluated};

/// The worked examples: their answers, the number of runs that begin, and what is held after them.
pub fn evaluations()
    ensures items { ItemsAreEvaluated }
    ensures choice { ChoiceIsEvaluated }
    ensures choice_precedents { ChoiceHasPrecedents }
    ensures taken_over { TakenOverIsEvaluated }
    ensures taken_over_precedents { TakenOverHasPrecedents }
    ensures fixed { FixedTargetIsEvaluated }
    ensures fault { FaultIsEvaluated }
    ensures ring { RingIsEvaluated }
    ensures mended { MendedIsEvaluated }
    ensures item_ring { ItemRingIsEvaluated }
    ensures too_deep { AskedIsTooDeep }
    ensures no_value_so_deep { NoValueSoDeep }
    ensures two_are_not_too_deep { TwoAreNotTooDeep }
    ensures held_is_not_too_deep { HeldIsNotTooDeep }
    ensures default_argument { DefaultIsEvaluated }
    ensures input { InputIsEvaluated }
{}
