//! Worked examples of single forms, as theorems over the meaning of nodes.
ghost use Rattle.mx_formula_examples.specs.FormRows.{PowersFromRight, PowerAsksFromLeft, SignOfPower, SignWithinPower, ChainOfNeighbours, ChainEndsEarly, ChainAsksOnce, NoneIsNone, ZeroIsNone, ZeroIsNotNone, OrEndsEarly, AndEndsEarly, OrGivesLast, AndGivesLast, DoubleNot, TupleFromLeft, IfTaken, ElifTaken, ElseTaken, FaultAtElif, LocalSet, LocalUnset, ChangeReadsFirst, LoopNameStays, LoopNameUnset, EndGivesNone};
ghost use Rattle.mx_formula_examples.specs.CallRows.{DefaultArgument, GlobalReference, InputGiven, InputAsked, GeneratorTest, GeneratorScope, AllEndsEarly, NoSum, NotPlain, NotCalled, TooManyInside, TooFewInside, RangeTooLarge, ParameterReplaced};

/// What single operators and statements mean. Does nothing when it runs.
pub fn forms()
    ensures powers_from_right { PowersFromRight }
    ensures power_asks_from_left { PowerAsksFromLeft }
    ensures sign_of_power { SignOfPower }
    ensures sign_within_power { SignWithinPower }
    ensures chain_of_neighbours { ChainOfNeighbours }
    ensures chain_ends_early { ChainEndsEarly }
    ensures chain_asks_once { ChainAsksOnce }
    ensures none_is_none { NoneIsNone }
    ensures zero_is_none { ZeroIsNone }
    ensures zero_is_not_none { ZeroIsNotNone }
    ensures or_ends_early { OrEndsEarly }
    ensures and_ends_early { AndEndsEarly }
    ensures or_gives_last { OrGivesLast }
    ensures and_gives_last { AndGivesLast }
    ensures double_not { DoubleNot }
    ensures tuple_from_left { TupleFromLeft }
    ensures if_taken { IfTaken }
    ensures elif_taken { ElifTaken }
    ensures else_taken { ElseTaken }
    ensures fault_at_elif { FaultAtElif }
    ensures local_set { LocalSet }
    ensures unset_local { LocalUnset }
    ensures change_reads_first { ChangeReadsFirst }
    ensures loop_name_stays { LoopNameStays }
    ensures loop_name_unset { LoopNameUnset }
    ensures end_gives_none { EndGivesNone }
{}

/// What calls, names of the model, inputs, generators and faults inside an expression mean. Does nothing when it runs.
pub fn calls()
    ensures default_argument { DefaultArgument }
    ensures global_reference_read { GlobalReference }
    ensures input_given { InputGiven }
    ensures input_asked { InputAsked }
    ensures generator_test { GeneratorTest }
    ensures generator_scope { GeneratorScope }
    ensures all_ends_early { AllEndsEarly }
    ensures no_sum { NoSum }
    ensures not_plain_inside { NotPlain }
    ensures not_called { NotCalled }
    ensures too_many_inside { TooManyInside }
    ensures too_few_inside { TooFewInside }
    ensures range_too_large { RangeTooLarge }
    ensures parameter_replaced { ParameterReplaced }
{}
