//! What holds of the languages, for those who parse.

ghost use Rattle.std.specs.Prelude.{◌≡◌, List};
ghost use Rattle.mx_value.specs.declared.value.Value.{Value};
ghost use Rattle.mx_value.specs.declared.value.Segment.{Segment};
ghost use Rattle.mx_value.specs.declared.node.Node.{Node};
ghost use Rattle.mx_grammar.specs.Literals.{literal_text, addr_text, node_text};
ghost use Rattle.mx_grammar.specs.Spelling.{Spells};
ghost use Rattle.mx_grammar.specs.declared.word.Word.{Word};
ghost use Rattle.mx_syntax.specs.declared.expr.Expr.{Expr};
ghost use Rattle.mx_syntax.specs.declared.stmt.Formula.{Formula};
ghost use Rattle.mx_syntax.specs.declared.stmt.Params.{Params};
ghost use Rattle.mx_expression.specs.Expressions.{expression_text};
ghost use Rattle.mx_parse.specs.Formulas.{formula_text, params_text};

/// Each list of tokens spells at most one literal.
pub fn one_literal()
    ensures { (tokens : List Word) (a b : Value) → Spells literal_text tokens a →
        Spells literal_text tokens b → a ≡ b }
{}

/// Each list of tokens spells at most one address.
pub fn one_addr()
    ensures { (tokens : List Word) (a b : List Segment) → Spells addr_text tokens a →
        Spells addr_text tokens b → a ≡ b }
{}

/// Each list of tokens spells at most one node.
pub fn one_node()
    ensures { (tokens : List Word) (a b : Node) → Spells node_text tokens a →
        Spells node_text tokens b → a ≡ b }
{}

/// Each list of tokens spells at most one expression.
pub fn one_expr()
    ensures { (tokens : List Word) (a b : Expr) → Spells expression_text tokens a →
        Spells expression_text tokens b → a ≡ b }
{}

/// Each list of tokens spells at most one formula.
pub fn one_formula()
    ensures { (tokens : List Word) (a b : Formula) → Spells formula_text tokens a →
        Spells formula_text tokens b → a ≡ b }
{}

/// Each list of tokens spells at most one parameter list of a space.
pub fn one_params()
    ensures { (tokens : List Word) (a b : Params) → Spells params_text tokens a →
        Spells params_text tokens b → a ≡ b }
{}
