//! Examples. Each is proved as what a function ensures that does nothing.
ghost use Rattle.mx_answers_examples.specs.Examples.{RunsMeetPremises, AskerGivesTheInput, AskerEndsOnlySo, InputIsNotHeld, CircleIsARing, NoRunIsAllowed, HeldIsRight, ChangeDrops, SameChangeKeeps};

/// What is answered and held in a model of three nodes.
pub fn examples()
    ensures runs_meet_premises { RunsMeetPremises }
    ensures asker_gives_the_input { AskerGivesTheInput }
    ensures asker_ends_only_so { AskerEndsOnlySo }
    ensures input_is_not_held { InputIsNotHeld }
    ensures circle_is_a_ring { CircleIsARing }
    ensures no_run_is_allowed { NoRunIsAllowed }
    ensures held_is_right { HeldIsRight }
    ensures change_drops { ChangeDrops }
    ensures same_change_keeps { SameChangeKeeps }
{}
