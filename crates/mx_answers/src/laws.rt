//! Laws over the definitions. Each is proved as what a function ensures that does nothing.
ghost use Rattle.mx_answers.specs.Laws.{OneAnswer, NotRefused, OneStep, RightIsAlike, StaysRight, ValueTicks, RetainedIsRight, ClearedIsRight, ValueIsRecorded, OneRecord, RecordStays, OneReads, InputReadsNone, Holding, RollingBack, SiftedByKeys, SiftedByScope, SiftedByTest};

/// An answer and what is held after it are one, and are right. What an edit or a clearing keeps is right, and a right
/// memo that is sifted, added to or rolled back stays right and holds exactly what it should.
pub fn laws()
    ensures one_answer { OneAnswer }
    ensures not_refused { NotRefused }
    ensures one_step { OneStep }
    ensures right_is_alike { RightIsAlike }
    ensures stays_right { StaysRight }
    ensures value_ticks { ValueTicks }
    ensures retained_is_right { RetainedIsRight }
    ensures cleared_is_right { ClearedIsRight }
    ensures value_is_recorded { ValueIsRecorded }
    ensures one_record { OneRecord }
    ensures record_stays { RecordStays }
    ensures one_reads { OneReads }
    ensures input_reads_none { InputReadsNone }
    ensures holding { Holding }
    ensures rolling_back { RollingBack }
    ensures sifted_by_keys { SiftedByKeys }
    ensures sifted_by_scope { SiftedByScope }
    ensures sifted_by_test { SiftedByTest }
{}
