//! What holds of printed texts, for those who parse them again.

ghost use Rattle.std.specs.Prelude.{◌≡◌, ℕ, List, Some, Ok};
ghost use Rattle.mx_value.specs.declared.value.Value.{Value};
ghost use Rattle.mx_value.specs.declared.value.Segment.{Segment};
ghost use Rattle.mx_value.specs.declared.node.Node.{Node};
ghost use Rattle.mx_grammar.specs.Literals.{literal_text, addr_text, node_text};
ghost use Rattle.mx_print.specs.Values.{value_text, address_text};
ghost use Rattle.mx_print.specs.Values as values;
ghost use Rattle.mx_syntax.specs.declared.expr.Expr.{Expr};
ghost use Rattle.mx_syntax.specs.declared.stmt.Stmt.{Stmt};
ghost use Rattle.mx_syntax.specs.declared.stmt.Formula.{Formula};
ghost use Rattle.mx_syntax.specs.declared.stmt.Params.{Params};
ghost use Rattle.mx_expression.specs.Expressions.{expression_text};
ghost use Rattle.mx_print.specs.Expressions.{at, printed};
ghost use Rattle.mx_print.specs.Statements.{print, print_params};
ghost use Rattle.mx_parse.specs.Formulas.{formula_text, params_text};
ghost use Rattle.mx_parse.specs.FormulaLimits.{formula_limits, params_limits};
ghost use Rattle.mx_grammar.specs.Limits.{AnswersWithin};
ghost use Rattle.mx_grammar.specs.Spelling.{SpellsIn};
ghost use Rattle.mx_round_trip.specs.Proper.{IsProper};
ghost use Rattle.mx_round_trip.specs.PlainValues.{PlainValuesReadBack, SpelledValuesAreLiterals};
ghost use Rattle.mx_round_trip.specs.ReadBack.{ReadsBack, ReadsBackWithin, GivenAgain};
ghost use Rattle.mx_round_trip.specs.ParsedLines.{HasItsLines};

use mx_print::line::line_laws;

/// The printed text of a literal spells it again, unless it is longer than a source may be.
pub fn literals_read_back()
    ensures { (source : List ℕ) (v : Value) → ReadsBack literal_text source v (value_text v) }
{}

/// The printed text of each value that has a literal spells it, unless it is longer than a source may be.
pub fn plain_values_read_back()
    ensures { PlainValuesReadBack }
{}

/// A value that a source spells is plain, with numbers in range and printable texts, and within the limit on nesting: the premises
/// of the law above are no more than is needed.
pub fn spelled_values_are_literals()
    ensures { SpelledValuesAreLiterals }
{}

/// The printed text of an address spells it again, unless it is longer than a source may be.
pub fn addresses_read_back()
    ensures { (source : List ℕ) (a : List Segment) → ReadsBack addr_text source a (address_text a) }
{}

/// The printed text of a node spells it again, unless it is longer than a source may be.
pub fn nodes_read_back()
    ensures { (source : List ℕ) (n : Node) → ReadsBack node_text source n (values.node_text n) }
{}

/// A node that a source spells is proper: its arguments and the items of its address are plain values within the limits on size and
/// nesting, and its address begins with a name, has no item directly behind another, and is no larger than a value may be.
pub fn nodes_are_proper()
    ensures { (source : List ℕ) (n : Node) → SpellsIn node_text source n → IsProper n }
{}

/// The printed text of an expression spells it again, unless it is past a limit of sources.
pub fn expressions_read_back()
    ensures { (source : List ℕ) (x : Expr) →
        ReadsBackWithin expression_text source x (at 0 (printed x)) }
{}

/// The printed text of a formula spells it again, unless it is past a limit of sources.
pub fn formulas_read_back()
    ensures { (source : List ℕ) (f : Formula) → ReadsBackWithin formula_text source f (print f) }
{}

/// The printed text of a space's parameters spells them again, unless it is past a limit of sources.
pub fn params_read_back()
    ensures { (source : List ℕ) (p : Params) →
        ReadsBackWithin params_text source p (print_params p) }
{}

/// Of each formula that is given for a source, the printed text is a source for which that formula is given. So the parser, of which
/// each source has one answer, gives it again.
pub fn formula_round_trip()
    ensures { (source : List ℕ) (f : Formula) →
        GivenAgain formula_text formula_limits source f (print f) }
{}

/// The same of the parameters of a space.
pub fn params_round_trip()
    ensures { (source : List ℕ) (p : Params) →
        GivenAgain params_text params_limits source p (print_params p) }
{}

/// Of each formula that is given for a source, the printed text, cut at its line feeds, is the formula's lines. Each statement and each
/// test of an `if` or `elif` stands in it at the line that the heights above it give.
pub fn parsed_lines()
    ensures { (source : List ℕ) (f : Formula) →
        AnswersWithin formula_text formula_limits source (Ok f) →
        HasItsLines (print f) f.params f.body }
{
    line_laws();
}

/// The same of the parameters of a space and the formula behind them.
pub fn parsed_params_lines()
    ensures { (source : List ℕ) (p : Params) (body : List Stmt) →
        AnswersWithin params_text params_limits source (Ok p) → p.body ≡ Some body →
        HasItsLines (print_params p) p.params body }
{
    line_laws();
}
