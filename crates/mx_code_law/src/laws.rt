//! Laws over the definitions. Each is proved as what a function ensures that does nothing.
ghost use Rattle.mx_code_law.specs.Laws.{ExpressionLaw, CalleeLaw, StatementLaw, CellsLaw, ItemLaw, SizeLaw};

/// The instructions of each expression and of each statement do what these mean, over any scope, and
/// the code of each formula does the formula's run, where its arguments bind: of cells, and of items.
pub fn laws()
    ensures expressions { ExpressionLaw }
    ensures callees { CalleeLaw }
    ensures statements { StatementLaw }
    ensures cells { CellsLaw }
    ensures items { ItemLaw }
    ensures sizes { SizeLaw }
{}
