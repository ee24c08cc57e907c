//! Laws over what a memo keeps between evaluations. Each is proved as what a function ensures that does nothing.
ghost use Rattle.mx_memo_laws.specs.Keeping.{NothingIsKept, EditKeeps, ClearingKeeps, RollBackKeeps, RenumberingKeeps};

/// What a memo keeps is right for the model: after an edit and a clearing, too, and as before after a roll-back.
pub fn keeping_laws()
    ensures nothing_is_kept { NothingIsKept }
    ensures edit_keeps { EditKeeps }
    ensures clearing_keeps { ClearingKeeps }
    ensures roll_back_keeps { RollBackKeeps }
    ensures renumbering_keeps { RenumberingKeeps }
{}
