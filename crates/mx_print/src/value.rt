//! The texts of values and nodes, each added behind the bytes of a buffer.
ghost use Rattle.std.specs.Prelude.{◌≡◌, ◌++◌, OnOk};
ghost use Rattle.mx_print.specs.Values as spec;

use crate::nodes;
use mx_value::node::Node;
use mx_value::value::Value;
use std::alloc::AllocError;

/// Adds a text in quotes.
pub fn push_quoted(out: &mut Vec<u8>, text: &[u8]) -> Result<(), AllocError>
    ensures { OnOk result (out.new.items ≡ out.old.items ++ spec.quoted text.now) }
{
    nodes::push_quoted(out, text)
}

/// Adds a value: None, True, a number, a text in quotes, a tuple, or what a space, cells or a table is called.
pub fn push_value(out: &mut Vec<u8>, value: &Value) -> Result<(), AllocError>
    ensures { OnOk result (out.new.items ≡ out.old.items ++ spec.value_text value.now) }
{
    nodes::push_value(out, value)
}

/// Adds a node: its address, its name behind a dot, and its arguments; an item node has them in brackets.
pub fn push_node(out: &mut Vec<u8>, node: &Node) -> Result<(), AllocError>
    ensures { OnOk result (out.new.items ≡ out.old.items ++ spec.node_text node.now) }
{
    nodes::push_node(out, node)
}
