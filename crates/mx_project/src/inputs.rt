//! The inputs of a project, in the order of the texts of their nodes.
ghost use Rattle.std.specs.Prelude.{◌≡◌, List as Many, map, IfOk};
ghost use Rattle.std.specs.List.{concat};
ghost use Rattle.mx_value.specs.declared.node.Node.{Node as NodeRecord};
ghost use Rattle.mx_value.specs.declared.value.Value.{Value as ValueRecord};
ghost use Rattle.mx_print.specs.Values.{node_text};
ghost use Rattle.mx_project.specs.Lines.{input_lines};
ghost use Rattle.mx_project.specs.Writing.{AreOrdered};
ghost use Rattle.mx_project.specs.Inputs as spec;
ghost use Rattle.mx_project.specs.Inputs.{input_in, IsInputsText};

use crate::lines;
use mx_list::list::List;
use mx_list::shared::Shared;
use mx_members::members::Members;
use mx_print::value::push_node;
use mx_value::node::Node;
use mx_value::value::Value;
use std::alloc::{AllocError, Global};

/// An input with the text of its node.
#[derive(Drop)]
pub struct InputRow {
    pub text: List<u8>,
    pub node: Node,
    pub value: Shared<Value>,
}

/// The bytes of the file of inputs.
pub fn inputs_bytes(
    alloc: Global,
    inputs: &Members<Node, Shared<Value>>,
) -> Result<Vec<u8>, AllocError>
    ensures { IfOk result (λ bytes. IsInputsText inputs.now bytes.items) }
{
    let rows = rows_of(alloc, inputs)?;
    let ordered = by_text(rows)?;
    return lines_of(alloc, ordered.as_slice());
}

/// These inputs with the texts of their nodes.
fn rows_of(
    alloc: Global,
    inputs: &Members<Node, Shared<Value>>,
) -> Result<Vec<InputRow>, AllocError>
    ensures { IfOk result (λ rows. rows.items ≡ map spec.row_of inputs.now) }
{
    let mut rows = Vec::new(alloc);
    for place in 0..inputs.count() {
        let Some((node, value)) = inputs.at(place) else {
            unreachable!()
        };
        rows.push(row_of(alloc, node, value)?)?;
    }
    return Ok(rows);
}

/// An input with the text of its node.
fn row_of(alloc: Global, node: &Node, value: &Shared<Value>) -> Result<InputRow, AllocError>
    ensures { IfOk result (λ row. row ≡ spec.row_of (node.now, value.now)) }
{
    let text = text_of_node(alloc, node)?;
    let value = value.copy()?;
    let node = node.copy(alloc)?;
    return Ok(InputRow { text, node, value });
}

/// The text of a node.
fn text_of_node(alloc: Global, node: &Node) -> Result<List<u8>, AllocError>
    ensures { IfOk result (λ text. text ≡ node_text node.now) }
{
    let mut text = Vec::new(alloc);
    push_node(&mut text, node)?;
    return List::from_vec(alloc, text);
}

/// The inputs in the order of the texts.
fn by_text(rows: Vec<InputRow>) -> Result<Vec<InputRow>, AllocError>
    ensures { (inputs : Many (NodeRecord × ValueRecord)) → rows.items ≡ map spec.row_of inputs →
        IfOk result (λ sorted. AreOrdered inputs (map input_in sorted.items)) }
{
    let mut sorted = rows;
    sorted.sort_by(|one, other| one.text.as_slice().cmp(other.text.as_slice()))?;
    return Ok(sorted);
}

/// The lines of inputs.
fn lines_of(alloc: Global, rows: &[InputRow]) -> Result<Vec<u8>, AllocError>
    ensures { IfOk result (λ bytes.
        bytes.items ≡ concat (input_lines (map input_in rows.now))) }
{
    let mut out = Vec::new(alloc);
    for row in rows {
        lines::push_input(&mut out, &row.node, row.value.get())?;
    }
    return Ok(out);
}
