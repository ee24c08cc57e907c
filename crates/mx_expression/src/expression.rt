//! Expressions.

ghost use Rattle.mx_grammar.specs.Reading.{Reads};
ghost use Rattle.mx_expression.specs.ExpressionParsers as spec;

use crate::operand::Operands;
use mx_grammar::cursor::Cursor;
use mx_grammar::trouble::Trouble;
use mx_syntax::expr::Expr;
use std::alloc::Global;

/// An `or` with fewer than `levels` brackets open at once.
#[tactic(auto, unfolding(crate::specs::ExpressionParsers::ors, crate::specs::ExpressionParsers::expression))]
fn or(alloc: Global, tokens: &mut Cursor<'_>, levels: usize) -> Result<Expr, Trouble>
    ensures { Reads (spec.ors levels tokens.old) result tokens.new }
{
    if levels == 0 {
        return Err(Trouble::Unexpected(tokens.left()));
    }
    Operands {
        alloc,
        levels: levels - 1,
        or,
    }
    .either(tokens)
}

/// An expression with fewer than `levels` brackets open at once.
pub fn expression(alloc: Global, tokens: &mut Cursor<'_>, levels: usize) -> Result<Expr, Trouble>
    ensures { Reads (spec.expression levels tokens.old) result tokens.new }
{
    Operands { alloc, levels, or }.inside(tokens)
}
