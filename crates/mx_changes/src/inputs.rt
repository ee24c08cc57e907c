//! The inputs of a text: their nodes, and the changes that edits of inputs make.
ghost use Rattle.std.specs.Prelude.{◌≡◌, IfOk};
ghost use Rattle.mx_value.specs.declared.node.Node.TheVariants as node;
ghost use Rattle.mx_model.specs.Keys.{node_eq};
ghost use Rattle.mx_model.specs.Change.{define, without};

use crate::defined::with_own;
use mx_list::items::Items;
use mx_list::shared::Shared;
use mx_members::members::Members;
use mx_model::text::ModelText;
use mx_value::label::Label;
use mx_value::node::Node;
use mx_value::value::{Addr, Value};
use std::alloc::{AllocError, Global};

/// The node of cells at these arguments.
pub fn node_of(at: &Addr, name: &Label, args: Items<Value>) -> Result<Node, AllocError>
    ensures { IfOk result (λ n. n ≡ node.Cell at.now name.now args) }
{
    Ok(Node::Cell(at.copy()?, name.copy()?, args))
}

/// The text with a value that is put in for a node.
pub fn with_input(
    alloc: Global,
    text: &ModelText,
    node: Node,
    value: &Value,
) -> Result<ModelText, AllocError>
    ensures { let inputs = define node_eq text.now.inputs node value.now in
        IfOk result (λ t. t ≡ record text.now { inputs = inputs }) }
{
    let inputs = inputs_with(alloc, text, node, value)?;
    text.with_inputs(alloc, inputs)
}

/// The inputs with a value that is put in for a node.
fn inputs_with(
    alloc: Global,
    text: &ModelText,
    node: Node,
    value: &Value,
) -> Result<Members<Node, Shared<Value>>, AllocError>
    ensures { IfOk result (λ inputs. inputs ≡ define node_eq text.now.inputs node value.now) }
{
    let value = shared_copy(alloc, value)?;
    with_own(alloc, text.inputs(), node, value)
}

/// A copy of a value, to be shared.
fn shared_copy(alloc: Global, value: &Value) -> Result<Shared<Value>, AllocError>
    ensures { IfOk result (λ copy. copy ≡ value.now) }
{
    Shared::new(alloc, value.copy(alloc)?)
}

/// The text without the input of a node.
pub fn without_input(alloc: Global, text: &ModelText, node: &Node) -> Result<ModelText, AllocError>
    ensures { let inputs = without node_eq text.now.inputs node.now in
        IfOk result (λ t. t ≡ record text.now { inputs = inputs }) }
{
    let inputs = text.inputs().without(alloc, node)?;
    text.with_inputs(alloc, inputs)
}
