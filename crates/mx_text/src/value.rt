//! The texts of values and nodes.
ghost use Rattle.std.specs.Prelude.{◌≡◌, ◌≢◌, IfOk};
ghost use Rattle.mx_print.specs.Values.{value_text, node_text};

use mx_print::value::{push_node, push_value};
use mx_value::node::Node;
use mx_value::value::Value;
use std::alloc::{AllocError, Global};

/// The text of a value: a literal, or what a space, cells or a table is called.
pub fn text_of(alloc: Global, value: &Value) -> Result<Vec<u8>, AllocError>
    ensures { IfOk result (λ text. text.items ≡ value_text value.now) }
{
    let mut text = Vec::new(alloc);
    push_value(&mut text, value)?;
    Ok(text)
}

/// The text of a node.
pub fn text_of_node(alloc: Global, node: &Node) -> Result<Vec<u8>, AllocError>
    ensures { IfOk result (λ text. text.items ≡ node_text node.now) }
{
    let mut text = Vec::new(alloc);
    push_node(&mut text, node)?;
    Ok(text)
}
