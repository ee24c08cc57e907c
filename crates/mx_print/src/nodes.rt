//! The texts of values and nodes, each added behind the bytes of a buffer.
ghost use Rattle.std.specs.Prelude.{◌≡◌, ◌++◌, map, if◌then◌else◌, OnOk};
ghost use Rattle.std.specs.List.{concat};
ghost use Rattle.mx_print.specs.Texts.{commas};
ghost use Rattle.mx_print.specs.Values as spec;
ghost use Rattle.mx_print.specs.Values.{value_text, segment_text, node_text};

use crate::sink::{Sink, push, push_int, push_number};
use mx_value::fixed::Fixed;
use mx_value::node::Node;
use mx_value::value::{CellsAt, Segment, Value};
use std::alloc::AllocError;

/// Adds so many digits of a number, with zeros in front.
fn push_padded<S: Sink>(out: &mut S, digits: u8, number: u64) -> Result<(), AllocError>
    ensures { OnOk result (S.written out.new ≡ S.written out.old ++ spec.padded digits number) }
{
    if digits == 0 {
        return Ok(());
    }
    if let Err(failure) = push_padded(out, digits - 1, number / 10) {
        return Err(failure);
    }
    if let Err(failure) = push(out, &[b'0' + (number % 10) as u8]) {
        return Err(failure);
    }
    return Ok(());
}

/// Adds so many decimals, without the zeros at their end but for the first decimal.
fn push_decimals<S: Sink>(out: &mut S, digits: u8, number: u64) -> Result<(), AllocError>
    ensures { OnOk result (S.written out.new ≡ S.written out.old ++ spec.decimals digits number) }
{
    if digits <= 1 {
        return push_padded(out, digits, number);
    }
    if number % 10 != 0 {
        return push_padded(out, digits, number);
    }
    return push_decimals(out, digits - 1, number / 10);
}

/// Adds a decimal number: a point with 1 to 9 decimals, and no zero at the end but the first decimal.
fn push_fixed<S: Sink>(out: &mut S, number: Fixed) -> Result<(), AllocError>
    ensures { OnOk result (S.written out.new ≡ S.written out.old ++ spec.fixed_text number) }
{
    let raw = number.raw();
    let size = raw.unsigned_abs();
    if raw < 0 {
        push(out, b"-")?;
    }
    push_number(out, (size / 1_000_000_000) as u64)?;
    push(out, b".")?;
    push_decimals(out, 9, (size % 1_000_000_000) as u64)
}

/// Adds a text in quotes.
pub(crate) fn push_quoted<S: Sink>(out: &mut S, text: &[u8]) -> Result<(), AllocError>
    ensures { OnOk result (S.written out.new ≡ S.written out.old ++ spec.quoted text.now) }
{
    push(out, b"\"")?;
    push_escaped(out, text)?;
    push(out, b"\"")
}

/// Adds a text with a backslash in front of each quote and backslash.
fn push_escaped<S: Sink>(out: &mut S, text: &[u8]) -> Result<(), AllocError>
    ensures { OnOk result
        (S.written out.new ≡ S.written out.old ++ concat (map spec.escaped text.now)) }
{
    for byte in text {
        push_escaped_byte(out, *byte)?;
    }
    Ok(())
}

fn push_escaped_byte<S: Sink>(out: &mut S, byte: u8) -> Result<(), AllocError>
    ensures { OnOk result (S.written out.new ≡ S.written out.old ++ spec.escaped byte) }
{
    if byte == b'"' {
        return push(out, b"\\\"");
    }
    if byte == b'\\' {
        return push(out, b"\\\\");
    }
    return push(out, &[byte]);
}

/// Adds a value: None, True, a number, a text in quotes, a tuple, or what a space, cells or a table is called.
#[cycle(text)]
pub(crate) fn push_value<S: Sink>(out: &mut S, value: &Value) -> Result<(), AllocError>
    ensures { OnOk result (S.written out.new ≡ S.written out.old ++ value_text value.now) }
{
    match value {
        Value::Nothing => push(out, b"None"),
        Value::Flag(flag) => {
            if *flag {
                push(out, b"True")
            } else {
                push(out, b"False")
            }
        }
        Value::Int(n) => push_int(out, *n),
        Value::Fix(number) => push_fixed(out, *number),
        Value::Text(text) => push_quoted(out, text.as_slice()),
        Value::Tup(items) => push_tuple(out, items.as_slice()),
        Value::Space(at) => {
            push(out, b"<space ")?;
            push_address(out, at.as_slice())?;
            push(out, b">")
        }
        Value::Cells(at) => {
            push(out, b"<cells ")?;
            push_cells(out, at)?;
            push(out, b">")
        }
        Value::Table(name) => {
            push(out, b"<table ")?;
            push(out, name.as_slice())?;
            push(out, b">")
        }
    }
}

/// Adds the address of cells and, behind a dot, their name.
#[cycle(text)]
fn push_cells<S: Sink>(out: &mut S, at: &CellsAt) -> Result<(), AllocError>
    ensures { OnOk result (S.written out.new ≡ S.written out.old ++ spec.cells_text at.now) }
{
    push_address(out, at.space.as_slice())?;
    push(out, b".")?;
    push(out, at.name.as_slice())
}

/// Adds values with commas between them.
#[cycle(text)]
fn push_commas<S: Sink>(out: &mut S, items: &[Value]) -> Result<(), AllocError>
    ensures { OnOk result
        (S.written out.new ≡ S.written out.old ++ commas (map value_text items.now)) }
{
    for (i, item) in items.iter().enumerate() {
        if i > 0 {
            push(out, b", ")?;
        }
        push_value(out, item)?;
    }
    Ok(())
}

/// Adds a tuple. One of a single item has a comma behind it.
#[cycle(text)]
fn push_tuple<S: Sink>(out: &mut S, items: &[Value]) -> Result<(), AllocError>
    ensures { OnOk result
        (S.written out.new ≡ S.written out.old ++ spec.tuple_text (map value_text items.now)) }
{
    push(out, b"(")?;
    push_commas(out, items)?;
    if items.len() == 1 {
        push(out, b",")?;
    }
    push(out, b")")
}

/// Adds an address: names with dots between them, and the arguments of an item in brackets.
#[cycle(text)]
fn push_address<S: Sink>(out: &mut S, at: &[Segment]) -> Result<(), AllocError>
    ensures { OnOk result (S.written out.new ≡ S.written out.old ++ spec.address_text at.now) }
{
    for (i, segment) in at.iter().enumerate() {
        push_segment(out, segment, i == 0)?;
    }
    Ok(())
}

/// Adds a segment, which the first of an address has no dot in front of.
#[cycle(text)]
fn push_segment<S: Sink>(out: &mut S, segment: &Segment, first: bool) -> Result<(), AllocError>
    ensures { OnOk result
        (S.written out.new
        ≡ S.written out.old ++
        (if first then spec.after_dot (segment_text segment.now) else segment_text segment.now)) }
{
    match segment {
        Segment::Name(name) => {
            if !first {
                push(out, b".")?;
            }
            push(out, name.as_slice())
        }
        Segment::Item(items) => {
            push(out, b"[")?;
            push_commas(out, items.as_slice())?;
            push(out, b"]")
        }
    }
}

/// Adds a node: its address, its name behind a dot, and its arguments; an item node has them in brackets.
pub(crate) fn push_node<S: Sink>(out: &mut S, node: &Node) -> Result<(), AllocError>
    ensures { OnOk result (S.written out.new ≡ S.written out.old ++ node_text node.now) }
{
    match node {
        Node::Cell(at, name, arguments) => {
            push_address(out, at.as_slice())?;
            push(out, b".")?;
            push(out, name.as_slice())?;
            push(out, b"(")?;
            push_commas(out, arguments.as_slice())?;
            push(out, b")")
        }
        Node::Item(at, arguments) => {
            push_address(out, at.as_slice())?;
            push(out, b"[")?;
            push_commas(out, arguments.as_slice())?;
            push(out, b"]")
        }
    }
}
