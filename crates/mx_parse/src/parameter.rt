//! Parameter lists.

ghost use Rattle.std.specs.Prelude.{◌≡◌};
ghost use Rattle.mx_grammar.specs.Reading.{Reads, accept};
ghost use Rattle.mx_grammar.specs.LiteralParsers.{literal};
ghost use Rattle.mx_parse.specs.Following.{Goes};
ghost use Rattle.mx_parse.specs.ParameterParsers as spec;

use mx_grammar::cursor::Cursor;
use mx_grammar::literal::literal;
use mx_grammar::trouble::Trouble;
use mx_grammar::word::Symbol;
use mx_list::items::Items;
use mx_list::list::List;
use mx_syntax::stmt::Param;
use mx_value::label::Label;
use std::alloc::Global;

/// Whether a parameter has this name.
fn is_named(params: &Items<Param>, name: &Label) -> bool
    ensures { result ≡ spec.is_named params.now name.now }
{
    params.as_slice().iter().any(|param| param.name == *name)
}

/// Whether a parameter has a default.
fn has_default(params: &Items<Param>) -> bool
    ensures { result ≡ spec.has_default params.now }
{
    params
        .as_slice()
        .iter()
        .any(|param| param.default.is_some())
}

/// A name that no parameter before has.
fn new_name(tokens: &mut Cursor<'_>, before: &Items<Param>) -> Result<Label, Trouble>
    ensures { Reads (accept (spec.new_name before.now) tokens.old) result tokens.new }
{
    let unexpected = Trouble::Unexpected(tokens.left());
    let name = tokens.name()?;
    if is_named(before, &name) {
        return Err(unexpected);
    }
    Ok(name)
}

/// A parameter behind others.
#[tactic(auto, unfolding(crate::specs::ParameterParsers::param, crate::specs::ParameterParsers::optional))]
fn param(
    alloc: Global,
    tokens: &mut Cursor<'_>,
    levels: usize,
    before: &Items<Param>,
) -> Result<Param, Trouble>
    ensures { Reads (spec.param (literal levels) before.now tokens.old) result tokens.new }
{
    let name = new_name(tokens, before)?;
    if !has_default(before) && !tokens.sees(Symbol::Assign) {
        return Ok(Param {
            name,
            default: None,
        });
    }
    tokens.expect(Symbol::Assign)?;
    let value = literal(alloc, tokens, levels)?;
    Ok(Param {
        name,
        default: Some(value),
    })
}

/// Reads a parameter behind those found before, or the bracket that closes the list, and answers whether another one may follow.
fn param_turn(
    alloc: Global,
    tokens: &mut Cursor<'_>,
    levels: usize,
    found: &mut Items<Param>,
) -> Result<bool, Trouble>
    ensures { Goes (spec.param_turn
        (literal levels) found.old tokens.old) result found.new tokens.new }
{
    if tokens.sees(Symbol::CloseRound) {
        tokens.expect(Symbol::CloseRound)?;
        return Ok(false);
    }
    let next = param(alloc, tokens, levels, found)?;
    found.push(next)?;
    if tokens.sees(Symbol::Comma) {
        tokens.expect(Symbol::Comma)?;
        return Ok(true);
    }
    tokens.expect(Symbol::CloseRound)?;
    Ok(false)
}

/// What is left of a list of parameters, behind those found before.
fn params(
    alloc: Global,
    tokens: &mut Cursor<'_>,
    levels: usize,
    found: Items<Param>,
) -> Result<Items<Param>, Trouble>
    ensures { Reads (spec.params (literal levels) found tokens.old) result tokens.new }
{
    let mut found = found;
    while param_turn(alloc, tokens, levels, &mut found)? {}
    Ok(found)
}

/// A list of at least one parameter, behind its opening bracket.
fn some_params(
    alloc: Global,
    tokens: &mut Cursor<'_>,
    levels: usize,
) -> Result<Items<Param>, Trouble>
    ensures { Reads (spec.some_params (literal levels) tokens.old) result tokens.new }
{
    let mut found = Items::new(alloc);
    let first = param(alloc, tokens, levels, &found)?;
    found.push(first)?;
    if tokens.sees(Symbol::Comma) {
        tokens.expect(Symbol::Comma)?;
        return params(alloc, tokens, levels, found);
    }
    tokens.expect(Symbol::CloseRound)?;
    Ok(found)
}

/// A list of parameters in its brackets, with at most `levels` further ones open at once in a default.
#[tactic(auto, unfolding(crate::specs::ParameterParsers::parameters_by))]
pub fn parameters(
    alloc: Global,
    tokens: &mut Cursor<'_>,
    levels: usize,
) -> Result<List<Param>, Trouble>
    ensures { Reads (spec.parameters levels tokens.old) result tokens.new }
{
    tokens.expect(Symbol::OpenRound)?;
    let found = params(alloc, tokens, levels, Items::new(alloc))?;
    Ok(List::from_vec(alloc, found.into_vec())?)
}

/// The same, of at least one parameter.
#[tactic(auto, unfolding(crate::specs::ParameterParsers::some_parameters_by))]
pub fn some_parameters(
    alloc: Global,
    tokens: &mut Cursor<'_>,
    levels: usize,
) -> Result<List<Param>, Trouble>
    ensures { Reads (spec.some_parameters levels tokens.old) result tokens.new }
{
    tokens.expect(Symbol::OpenRound)?;
    let found = some_params(alloc, tokens, levels)?;
    Ok(List::from_vec(alloc, found.into_vec())?)
}
