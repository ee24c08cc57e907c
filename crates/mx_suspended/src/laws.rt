//! Laws over the definitions. Each is proved as what a function ensures that does nothing.
ghost use Rattle.mx_suspended.specs.Laws.{AnsweringHeld, AnsweringInput, Starting, Beginning, Passing, PassingOn, Asking, Giving, HandingDown, AnsweringValue, AnsweringFault, AnsweringNoSuch, AnsweringWrongCount, AnsweringRing, AnsweringTooDeep, AnsweringFull, StayingWithin, WantingMemory, Closing};

/// What holds of runs in flight, step by step: from the node that is asked for, by the runs that begin, go on, wait and
/// give, to the right answer at each end. The machine cites one for each thing that it does.
pub fn laws()
    ensures answering_held { AnsweringHeld }
    ensures answering_input { AnsweringInput }
    ensures starting { Starting }
    ensures beginning { Beginning }
    ensures passing { Passing }
    ensures passing_on { PassingOn }
    ensures asking { Asking }
    ensures giving { Giving }
    ensures handing_down { HandingDown }
    ensures answering_value { AnsweringValue }
    ensures answering_fault { AnsweringFault }
    ensures answering_no_such { AnsweringNoSuch }
    ensures answering_wrong_count { AnsweringWrongCount }
    ensures answering_ring { AnsweringRing }
    ensures answering_too_deep { AnsweringTooDeep }
    ensures answering_full { AnsweringFull }
    ensures staying_within { StayingWithin }
    ensures wanting_memory { WantingMemory }
    ensures closing { Closing }
{}
