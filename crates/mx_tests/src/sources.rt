//! What the readers of the language make of a source.

use mx_lex::{Token, TokenKind, front_of, lex};
use mx_list::items::Items;
use mx_list::list::List;
use mx_parse::{parse_addr, parse_expr, parse_formula, parse_literal, parse_node, parse_params};
use mx_print::append::{push, push_number};
use mx_print::formula::{print, print_params};
use mx_print::value::{push_node, push_value};
use mx_syntax::expr::Expr;
use mx_syntax::stmt::{Formula, Stmt};
use mx_text::address::push_address;
use mx_text::parsing::{push_lex_refusal, push_parse_refusal};
use std::alloc::{AllocError, Global};

fn push_kind(out: &mut Vec<u8>, kind: TokenKind) -> Result<(), AllocError> {
    match kind {
        TokenKind::Name => push(out, b"Name "),
        TokenKind::Keyword => push(out, b"Keyword "),
        TokenKind::Int => push(out, b"Int "),
        TokenKind::Fix => push(out, b"Fix "),
        TokenKind::Text => push(out, b"Text "),
        TokenKind::Mark => push(out, b"Mark "),
        TokenKind::Newline => push(out, b"Newline "),
        TokenKind::Indent => push(out, b"Indent "),
        TokenKind::Dedent => push(out, b"Dedent "),
        TokenKind::End => push(out, b"End "),
    }
}

fn push_token(out: &mut Vec<u8>, token: Token) -> Result<(), AllocError> {
    push_kind(out, token.kind)?;
    push_number(out, u64::from(token.at))?;
    if token.len > 0 {
        push(out, b"+")?;
        push_number(out, u64::from(token.len))?;
    }
    Ok(())
}

fn push_all_tokens(out: &mut Vec<u8>, tokens: &[Token]) -> Result<(), AllocError> {
    for (place, token) in tokens.iter().enumerate() {
        if place > 0 {
            push(out, b" ")?;
        }
        push_token(out, *token)?;
    }
    Ok(())
}

/// The tokens of a source.
pub(crate) fn push_tokens(
    alloc: Global,
    out: &mut Vec<u8>,
    source: &[u8],
) -> Result<(), AllocError> {
    match lex(alloc, source) {
        Ok(tokens) => push_all_tokens(out, tokens.as_slice()),
        Err(refusal) => push_lex_refusal(out, refusal),
    }
}

/// The place of the first token `=`.
pub(crate) fn push_front(
    alloc: Global,
    out: &mut Vec<u8>,
    source: &[u8],
) -> Result<(), AllocError> {
    match front_of(alloc, source, b'=') {
        Ok(place) => push_number(out, place as u64),
        Err(refusal) => push_lex_refusal(out, refusal),
    }
}

/// A literal.
pub(crate) fn push_literal(
    alloc: Global,
    out: &mut Vec<u8>,
    source: &[u8],
) -> Result<(), AllocError> {
    match parse_literal(alloc, source) {
        Ok(value) => push_value(out, &value),
        Err(refusal) => push_parse_refusal(out, refusal),
    }
}

/// An address.
pub(crate) fn push_address_of(
    alloc: Global,
    out: &mut Vec<u8>,
    source: &[u8],
) -> Result<(), AllocError> {
    match parse_addr(alloc, source) {
        Ok(address) => push_address(alloc, out, &address),
        Err(refusal) => push_parse_refusal(out, refusal),
    }
}

/// A node.
pub(crate) fn push_node_of(
    alloc: Global,
    out: &mut Vec<u8>,
    source: &[u8],
) -> Result<(), AllocError> {
    match parse_node(alloc, source) {
        Ok(node) => push_node(out, &node),
        Err(refusal) => push_parse_refusal(out, refusal),
    }
}

/// Adds a formula as it is printed.
pub(crate) fn push_printed(
    alloc: Global,
    out: &mut Vec<u8>,
    formula: &Formula,
) -> Result<(), AllocError> {
    let printed = print(alloc, formula)?;
    push(out, &printed)
}

/// A formula.
pub(crate) fn push_formula(
    alloc: Global,
    out: &mut Vec<u8>,
    source: &[u8],
) -> Result<(), AllocError> {
    match parse_formula(alloc, source) {
        Ok(formula) => push_printed(alloc, out, &formula),
        Err(refusal) => push_parse_refusal(out, refusal),
    }
}

/// The parameters of a space.
pub(crate) fn push_parameters(
    alloc: Global,
    out: &mut Vec<u8>,
    source: &[u8],
) -> Result<(), AllocError> {
    match parse_params(alloc, source) {
        Ok(params) => push(out, &print_params(alloc, &params)?),
        Err(refusal) => push_parse_refusal(out, refusal),
    }
}

/// The one statement that returns an expression.
fn returned(alloc: Global, value: Expr) -> Result<List<Stmt>, AllocError> {
    let mut body = Items::new(alloc);
    body.push(Stmt::Return(Some(value)))?;
    List::from_vec(alloc, body.into_vec())
}

/// The formula without parameters that returns an expression.
fn push_returned(alloc: Global, out: &mut Vec<u8>, value: Expr) -> Result<(), AllocError> {
    let body = returned(alloc, value)?;
    let params = List::empty(alloc)?;
    push_printed(alloc, out, &Formula { params, body })
}

/// An expression, as the formula that returns it.
pub(crate) fn push_expression(
    alloc: Global,
    out: &mut Vec<u8>,
    source: &[u8],
) -> Result<(), AllocError> {
    match parse_expr(alloc, source) {
        Ok(value) => push_returned(alloc, out, value),
        Err(refusal) => push_parse_refusal(out, refusal),
    }
}
