//! Examples. Each is proved as what a function ensures that does nothing.
ghost use Rattle.mx_answers_examples.specs.Flights.{OuterGives, InnerIsTooDeep, HeldBreaksTheChain, HeldNeedsNoRun, InputNeedsNoRun, FaultKeepsTheInner, NoSuchKeepsNothing, NoSuchIsClosed, RingIsWithoutTheLead};

/// What is answered, what is held and how many runs begin, by the laws of runs in flight.
pub fn examples()
    ensures outer_gives { OuterGives }
    ensures inner_is_too_deep { InnerIsTooDeep }
    ensures held_breaks_the_chain { HeldBreaksTheChain }
    ensures held_needs_no_run { HeldNeedsNoRun }
    ensures input_needs_no_run { InputNeedsNoRun }
    ensures fault_keeps_the_inner { FaultKeepsTheInner }
    ensures no_such_keeps_nothing { NoSuchKeepsNothing }
    ensures no_such_is_closed { NoSuchIsClosed }
    ensures ring_is_without_the_lead { RingIsWithoutTheLead }
{}
