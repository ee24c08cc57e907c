//! The parsers of whole sources.

ghost use Rattle.std.specs.Prelude.{◌≡◌, ◌≢◌, ◌+◌, length, List, Err, Result};
ghost use Rattle.mx_value.specs.declared.value.Value.{Value};
ghost use Rattle.mx_value.specs.declared.value.Segment.{Segment};
ghost use Rattle.mx_value.specs.declared.node.Node.{Node};
ghost use Rattle.mx_grammar.specs.Reading.{Gives, parsed, line};
ghost use Rattle.mx_grammar.specs.LiteralParsers as spec;
ghost use Rattle.mx_grammar.specs.AddressParsers as address;
ghost use Rattle.mx_grammar.specs.Literals.{literal_text, addr_text, node_text};
ghost use Rattle.mx_grammar.specs.Spelling.{Answers, Unless, InText, Placed};
ghost use Rattle.mx_grammar.specs.declared.refusal.ParseRefusal.{ParseRefusal};
ghost use Rattle.mx_grammar.specs.Limits.{AnswersWithin};
ghost use Rattle.mx_syntax.specs.declared.expr.Expr.{Expr};
ghost use Rattle.mx_syntax.specs.declared.stmt.Formula.{Formula};
ghost use Rattle.mx_syntax.specs.declared.stmt.Params.{Params};
ghost use Rattle.mx_expression.specs.Expressions.{expression_text};
ghost use Rattle.mx_expression.specs.ExpressionParsers as expressions;
ghost use Rattle.mx_parse.specs.Insides.{formula_by, params_by};
ghost use Rattle.mx_parse.specs.Formulas.{formula_text, params_text};
ghost use Rattle.mx_parse.specs.FormulaLimits.{expression_limits, formula_limits, params_limits};

use crate::formula::{formula, space_params};
use crate::limits::{are_params_long, is_formula_long};
use crate::loops::{expression_within, list_within, maybe_within};
use crate::statement::Inside;
use mx_expression::expression::expression;
use mx_expression::reading::followed;
use mx_grammar::cursor::Cursor;
use mx_grammar::refusal::ParseRefusal;
use mx_grammar::source::{open, refusal};
use mx_grammar::trouble::Trouble;
use mx_grammar::word::{Symbol, Word};
use mx_grammar::{address, literal};
use mx_lex::Token;
use mx_syntax::expr::Expr;
use mx_syntax::stmt::{Formula, Params};
use mx_value::node::Node;
use mx_value::value::{Addr, Value};
use std::alloc::Global;

#[tactic(auto, unfolding(mx_grammar::specs::Reading::line, mx_grammar::specs::Reading::text))]
fn literal_of(alloc: Global, words: &[Word]) -> Result<Value, Trouble>
    ensures { Gives (parsed (λ n. line (spec.literal n)) words.now) result }
{
    let mut left = Cursor::new(words);
    let value = literal::literal(alloc, &mut left, words.len() + 1)?;
    let (value, ()) = followed(value, left.expect(Symbol::Newline))?;
    let (value, ()) = followed(value, left.expect(Symbol::End))?;
    if left.left() > 0 {
        return Err(Trouble::Unexpected(left.left()));
    }
    Ok(value)
}

#[tactic(auto, unfolding(mx_grammar::specs::Reading::line, mx_grammar::specs::Reading::text))]
fn addr_of(alloc: Global, words: &[Word]) -> Result<Addr, Trouble>
    ensures { Gives (parsed (λ n. line (address.addr (spec.literal (n + 1)))) words.now) result }
{
    let mut left = Cursor::new(words);
    let levels = words.len() + 1;
    let addr = address::addr(alloc, &mut left, levels + 1)?;
    left.expect(Symbol::Newline)?;
    left.expect(Symbol::End)?;
    if left.left() > 0 {
        return Err(Trouble::Unexpected(left.left()));
    }
    Ok(addr)
}

#[tactic(auto, unfolding(mx_grammar::specs::Reading::line, mx_grammar::specs::Reading::text))]
fn node_of(alloc: Global, words: &[Word]) -> Result<Node, Trouble>
    ensures { Gives (parsed (λ n. line (address.node_by (spec.literal (n + 1)))) words.now) result }
{
    let mut left = Cursor::new(words);
    let levels = words.len() + 1;
    let node = address::node(alloc, &mut left, levels + 1)?;
    let (node, ()) = followed(node, left.expect(Symbol::Newline))?;
    let (node, ()) = followed(node, left.expect(Symbol::End))?;
    if left.left() > 0 {
        return Err(Trouble::Unexpected(left.left()));
    }
    Ok(node)
}

/// How many loops may stand in one another.
const MOST_LOOPS: u8 = 8;

#[tactic(auto, unfolding(mx_grammar::specs::Reading::line, mx_grammar::specs::Reading::text))]
fn expression_of(alloc: Global, words: &[Word]) -> Result<Expr, Trouble>
    ensures { Gives (parsed (λ n. line (expressions.expression n)) words.now) result }
{
    let mut left = Cursor::new(words);
    let expression = expression(alloc, &mut left, words.len() + 1)?;
    let (expression, ()) = followed(expression, left.expect(Symbol::Newline))?;
    let (expression, ()) = followed(expression, left.expect(Symbol::End))?;
    if left.left() > 0 {
        return Err(Trouble::Unexpected(left.left()));
    }
    Ok(expression)
}

#[tactic(auto, unfolding(mx_grammar::specs::Reading::text))]
fn formula_of(alloc: Global, words: &[Word]) -> Result<Formula, Trouble>
    ensures { Gives (parsed formula_by words.now) result }
{
    let mut left = Cursor::new(words);
    let levels = words.len() + 1;
    let inside = Inside {
        brackets: levels + 1,
        displays: false,
    };
    let formula = formula(alloc, &mut left, inside, levels + 1)?;
    left.expect(Symbol::End)?;
    if left.left() > 0 {
        return Err(Trouble::Unexpected(left.left()));
    }
    Ok(formula)
}

#[tactic(auto, unfolding(mx_grammar::specs::Reading::text))]
fn params_of(alloc: Global, words: &[Word]) -> Result<Params, Trouble>
    ensures { Gives (parsed params_by words.now) result }
{
    let mut left = Cursor::new(words);
    let levels = words.len() + 1;
    let inside = Inside {
        brackets: levels + 1,
        displays: true,
    };
    let params = space_params(alloc, &mut left, inside, levels + 1)?;
    left.expect(Symbol::End)?;
    if left.left() > 0 {
        return Err(Trouble::Unexpected(left.left()));
    }
    Ok(params)
}

fn read_expression(alloc: Global, source: &[u8]) -> Result<Expr, ParseRefusal>
    ensures { result ≢ Err ParseRefusal.NoMemory →
        AnswersWithin expression_text expression_limits source.now result }
{
    let source = open(alloc, source)?;
    let expression = match expression_of(alloc, source.words.as_slice()) {
        Ok(expression) => expression,
        Err(trouble) => return Err(refusal(source.tokens.as_slice(), trouble)),
    };
    if !expression_within(&expression, MOST_LOOPS) {
        return Err(ParseRefusal::TooManyLoops);
    }
    Ok(expression)
}

fn read_formula(alloc: Global, source: &[u8]) -> Result<Formula, ParseRefusal>
    ensures { result ≢ Err ParseRefusal.NoMemory →
        AnswersWithin formula_text formula_limits source.now result }
{
    let source = open(alloc, source)?;
    let formula = match formula_of(alloc, source.words.as_slice()) {
        Ok(formula) => formula,
        Err(trouble) => return Err(refusal(source.tokens.as_slice(), trouble)),
    };
    if !list_within(formula.body.as_slice(), MOST_LOOPS) {
        return Err(ParseRefusal::TooManyLoops);
    }
    if is_formula_long(alloc, &formula)? {
        return Err(ParseRefusal::PrintsTooLong);
    }
    Ok(formula)
}

fn read_params(alloc: Global, source: &[u8]) -> Result<Params, ParseRefusal>
    ensures { result ≢ Err ParseRefusal.NoMemory →
        AnswersWithin params_text params_limits source.now result }
{
    let source = open(alloc, source)?;
    let params = match params_of(alloc, source.words.as_slice()) {
        Ok(params) => params,
        Err(trouble) => return Err(refusal(source.tokens.as_slice(), trouble)),
    };
    if !maybe_within(&params.body, MOST_LOOPS) {
        return Err(ParseRefusal::TooManyLoops);
    }
    if are_params_long(alloc, &params)? {
        return Err(ParseRefusal::PrintsTooLong);
    }
    Ok(params)
}

/// The expression that the source spells on one line.
pub fn parse_expr(alloc: Global, source: &[u8]) -> Result<Expr, ParseRefusal>
    // The answer is what the source spells within the limits, or the first trouble.
    ensures found { result ≢ Err ParseRefusal.NoMemory →
        AnswersWithin expression_text expression_limits source.now result }
    // What is spelled is the answer, and so is the first trouble, unless memory runs out.
    ensures only { (answer : Result Expr ParseRefusal) →
        AnswersWithin expression_text expression_limits source.now answer → Unless answer result }
{
    read_expression(alloc, source)
}

/// The formula of cells that the source spells: the parameters, and behind them `=` with an expression on the line or `:` with
/// statements.
pub fn parse_formula(alloc: Global, source: &[u8]) -> Result<Formula, ParseRefusal>
    // The answer is what the source spells within the limits, or the first trouble.
    ensures found { result ≢ Err ParseRefusal.NoMemory →
        AnswersWithin formula_text formula_limits source.now result }
    // What is spelled is the answer, and so is the first trouble, unless memory runs out.
    ensures only { (answer : Result Formula ParseRefusal) →
        AnswersWithin formula_text formula_limits source.now answer → Unless answer result }
{
    read_formula(alloc, source)
}

/// The parameters of a space that the source spells, at least one, maybe with the formula of its items behind them. That one may
/// return a display.
pub fn parse_params(alloc: Global, source: &[u8]) -> Result<Params, ParseRefusal>
    // The answer is what the source spells within the limits, or the first trouble.
    ensures found { result ≢ Err ParseRefusal.NoMemory →
        AnswersWithin params_text params_limits source.now result }
    // What is spelled is the answer, and so is the first trouble, unless memory runs out.
    ensures only { (answer : Result Params ParseRefusal) →
        AnswersWithin params_text params_limits source.now answer → Unless answer result }
{
    read_params(alloc, source)
}

/// The literal that the source spells: None, True, False, a number, a text or a tuple of literals, on one line. The number
/// 9223372036854775808 stands behind `-` alone.
pub fn parse_literal(alloc: Global, source: &[u8]) -> Result<Value, ParseRefusal>
    // The answer is what the source spells, or the first trouble.
    ensures found { result ≢ Err ParseRefusal.NoMemory → Answers literal_text source.now result }
    // What is spelled is the answer, and so is the first trouble, unless memory runs out.
    ensures only { (answer : Result Value ParseRefusal) → Answers literal_text source.now answer →
        Unless answer result }
{
    let source = open(alloc, source)?;
    match literal_of(alloc, source.words.as_slice()) {
        Ok(value) => Ok(value),
        Err(trouble) => Err(refusal(source.tokens.as_slice(), trouble)),
    }
}

/// The address that the source spells on one line: names with points between, each maybe with the arguments of an item in
/// square brackets behind it.
pub fn parse_addr(alloc: Global, source: &[u8]) -> Result<Addr, ParseRefusal>
    // The answer is what the source spells, or the first trouble.
    ensures found { result ≢ Err ParseRefusal.NoMemory → Answers addr_text source.now result }
    // What is spelled is the answer, and so is the first trouble, unless memory runs out.
    ensures only { (answer : Result (List Segment) ParseRefusal) →
        Answers addr_text source.now answer → Unless answer result }
{
    let source = open(alloc, source)?;
    match addr_of(alloc, source.words.as_slice()) {
        Ok(addr) => Ok(addr),
        Err(trouble) => Err(refusal(source.tokens.as_slice(), trouble)),
    }
}

/// The node that the source spells on one line: cells called with literals, `ADDR.NAME(1, 2)`, or the item that an address
/// ends with, `ADDR[1, 2]`. Cells without an address are those of the space `Main`.
pub fn parse_node(alloc: Global, source: &[u8]) -> Result<Node, ParseRefusal>
    // The answer is what the source spells, or the first trouble.
    ensures found { result ≢ Err ParseRefusal.NoMemory → Answers node_text source.now result }
    // What is spelled is the answer, and so is the first trouble, unless memory runs out.
    ensures only { (answer : Result Node ParseRefusal) → Answers node_text source.now answer →
        Unless answer result }
{
    let source = open(alloc, source)?;
    match node_of(alloc, source.words.as_slice()) {
        Ok(node) => Ok(node),
        Err(trouble) => Err(refusal(source.tokens.as_slice(), trouble)),
    }
}
