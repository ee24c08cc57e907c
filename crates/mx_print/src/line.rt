//! The lines of the printed text, for faults, which name the line of their statement.
ghost use Rattle.mx_print.specs.Lines.{ArmsStand, HeightsCountLines, StatementsStand, TextHasItsLines};

/// The law of lines, for proofs: heights, counted on the trees, are those of the printed text. In it each statement stands at the line that the
/// heights above it give, and so does each test of an `if` or `elif`; the text, cut at its line
/// feeds, is those lines. Does nothing when it runs.
pub fn line_laws()
    ensures heights { HeightsCountLines }
    ensures statements { StatementsStand }
    ensures arms { ArmsStand }
    ensures lines { TextHasItsLines }
{}
