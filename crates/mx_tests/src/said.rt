//! What the readers make of a text, as a text again, so that one call compares it with what is wanted.

use crate::fields::{push_number_of, push_records, push_table};
use crate::operators::push_item;
use crate::shown::push_command_of;
use crate::sources::{
    push_address_of, push_expression, push_formula, push_front, push_literal, push_node_of,
    push_parameters, push_tokens,
};
use std::alloc::{AllocError, Global};
use std::process::Abort;
use std::test::Fail;

/// A reader of texts.
#[derive(Clone, Copy)]
pub(crate) enum Reader {
    Tokens,
    /// Of the place of the first token `=`.
    Front,
    Literal,
    Address,
    Node,
    Formula,
    Parameters,
    Expression,
    Command,
    /// Of the number that a field says.
    Number,
    Records,
    Table,
    /// Of a value and the place of one of its items.
    Item,
}

/// Adds what a reader makes of a text, or why it is refused.
fn push_said(
    alloc: Global,
    out: &mut Vec<u8>,
    reader: Reader,
    text: &[u8],
) -> Result<(), AllocError> {
    match reader {
        Reader::Tokens => push_tokens(alloc, out, text),
        Reader::Front => push_front(alloc, out, text),
        Reader::Literal => push_literal(alloc, out, text),
        Reader::Address => push_address_of(alloc, out, text),
        Reader::Node => push_node_of(alloc, out, text),
        Reader::Formula => push_formula(alloc, out, text),
        Reader::Parameters => push_parameters(alloc, out, text),
        Reader::Expression => push_expression(alloc, out, text),
        Reader::Command => push_command_of(alloc, out, text),
        Reader::Number => push_number_of(out, text),
        Reader::Records => push_records(alloc, out, text),
        Reader::Table => push_table(alloc, out, text),
        Reader::Item => push_item(alloc, out, text),
    }
}

/// Each text says what stands beside it.
pub(crate) fn compare(
    rt: &impl Abort,
    alloc: Global,
    reader: Reader,
    rows: &[(&[u8], &str)],
) -> Result<(), Fail> {
    let mut out = Vec::new(alloc);
    for (text, wanted) in rows {
        out.clear();
        push_said(alloc, &mut out, reader, text)?;
        is(rt, &out, wanted);
    }
    Ok(())
}

/// A text is the one that is wanted.
pub(crate) fn is(rt: &impl Abort, text: &[u8], wanted: &str) {
    assert!(rt; text == wanted.as_bytes(), "not {wanted}");
}
