//! Formulas, and the parameters of spaces.

ghost use Rattle.mx_grammar.specs.Reading.{Reads};
ghost use Rattle.mx_parse.specs.StatementParsers as spec;
ghost use Rattle.mx_parse.specs.Insides.{parameters_in, some_parameters_in, expression_in, display_in, body_in};

use crate::block::body;
use crate::parameter::{parameters, some_parameters};
use crate::statement::{Inside, display_in, only};
use mx_expression::expression::expression;
use mx_expression::reading::followed;
use mx_grammar::cursor::Cursor;
use mx_grammar::trouble::Trouble;
use mx_grammar::word::Symbol;
use mx_list::list::List;
use mx_syntax::stmt::{Formula, Param, Params, Stmt};
use std::alloc::Global;

/// What is left of a formula behind its parameters.
#[tactic(auto, unfolding(crate::specs::StatementParsers::formula_rest, crate::specs::StatementParsers::valued, crate::specs::StatementParsers::headed))]
fn formula_rest(
    alloc: Global,
    tokens: &mut Cursor<'_>,
    inside: Inside,
    levels: usize,
    params: List<Param>,
) -> Result<Formula, Trouble>
    ensures { Reads (spec.formula_rest (expression_in inside)
        (body_in inside levels) params tokens.old) result tokens.new }
{
    if tokens.sees(Symbol::Assign) {
        tokens.expect(Symbol::Assign)?;
        let value = expression(alloc, tokens, inside.brackets)?;
        let (value, ()) = followed(value, tokens.expect(Symbol::Newline))?;
        let body = only(alloc, Stmt::Return(Some(value)))?;
        return Ok(Formula { params, body });
    }
    tokens.expect(Symbol::Colon)?;
    let body = body(alloc, tokens, inside, levels)?;
    Ok(Formula { params, body })
}

/// A formula with so many levels of blocks.
#[tactic(auto, unfolding(crate::specs::StatementParsers::formula))]
pub fn formula(
    alloc: Global,
    tokens: &mut Cursor<'_>,
    inside: Inside,
    levels: usize,
) -> Result<Formula, Trouble>
    ensures { Reads (spec.formula (parameters_in inside) (expression_in inside)
        (body_in inside levels) tokens.old) result tokens.new }
{
    let params = parameters(alloc, tokens, inside.brackets)?;
    formula_rest(alloc, tokens, inside, levels, params)
}

/// The value that the parameters of a space have on their line, as the body of a formula.
#[tactic(auto, unfolding(crate::specs::StatementParsers::given, crate::specs::StatementParsers::valued))]
fn given(
    alloc: Global,
    tokens: &mut Cursor<'_>,
    inside: Inside,
    params: List<Param>,
) -> Result<Params, Trouble>
    ensures { Reads (spec.given (λ entries. spec.item_of params entries)
        (λ x. spec.item_value_of params x) (expression_in inside)
        (display_in inside) tokens.old) result tokens.new }
{
    if tokens.sees(Symbol::OpenCurly) {
        let entries = display_in(alloc, tokens, inside)?;
        tokens.expect(Symbol::Newline)?;
        let body = Some(only(alloc, Stmt::ReturnItem(entries))?);
        return Ok(Params { params, body });
    }
    let value = expression(alloc, tokens, inside.brackets)?;
    let (value, ()) = followed(value, tokens.expect(Symbol::Newline))?;
    let body = Some(only(alloc, Stmt::Return(Some(value)))?);
    Ok(Params { params, body })
}

/// What stands behind the parameters of a space.
#[tactic(auto, unfolding(crate::specs::StatementParsers::params_rest, crate::specs::StatementParsers::headed))]
fn params_rest(
    alloc: Global,
    tokens: &mut Cursor<'_>,
    inside: Inside,
    levels: usize,
    params: List<Param>,
) -> Result<Params, Trouble>
    ensures { Reads (spec.params_rest (expression_in inside) (display_in inside)
        (body_in inside levels) params tokens.old) result tokens.new }
{
    if tokens.sees(Symbol::Newline) {
        tokens.expect(Symbol::Newline)?;
        return Ok(Params { params, body: None });
    }
    if tokens.sees(Symbol::Assign) {
        tokens.expect(Symbol::Assign)?;
        return given(alloc, tokens, inside, params);
    }
    tokens.expect(Symbol::Colon)?;
    let body = Some(body(alloc, tokens, inside, levels)?);
    Ok(Params { params, body })
}

/// The parameters of a space, with so many levels of blocks in the formula of its items.
#[tactic(auto, unfolding(crate::specs::StatementParsers::space_params))]
pub fn space_params(
    alloc: Global,
    tokens: &mut Cursor<'_>,
    inside: Inside,
    levels: usize,
) -> Result<Params, Trouble>
    ensures { Reads (spec.space_params (some_parameters_in inside) (expression_in inside)
        (display_in inside) (body_in inside levels) tokens.old) result tokens.new }
{
    let params = some_parameters(alloc, tokens, inside.brackets)?;
    params_rest(alloc, tokens, inside, levels, params)
}
