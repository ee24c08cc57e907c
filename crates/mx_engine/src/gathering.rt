//! Nodes that are gathered, and sorted by their texts.
ghost use Rattle.std.specs.Prelude.{◌≡◌, IfOk, List as Many, map};
ghost use Rattle.std.specs.List.Sorted.{IsPermutation};
ghost use Rattle.mx_value.specs.declared.node.Node.{Node as Asked};
ghost use Rattle.mx_memo.specs.Memos.{AreHeld};
ghost use Rattle.mx_memo_laws.specs.Entries.{IsOrdered};
ghost use Rattle.mx_engine.specs.ByText.{AreByText};
ghost use Rattle.mx_engine.specs.Gathering.{AreGathered, row_of};

use indexmap::IndexSet;
use mx_graph::NodeId;
use mx_list::list::List;
use mx_memo::Memo;
use mx_print::value::push_node;
use mx_value::node::Node;
use std::alloc::{AllocError, Global};

/// A node, with its text.
#[derive(Drop)]
pub struct Row {
    pub text: List<u8>,
    pub node: Node,
}

/// The nodes of these, each once.
pub(crate) fn nodes_of(
    alloc: Global,
    memo: &Memo,
    ids: &[NodeId],
) -> Result<IndexSet<Node>, AllocError>
    requires ordered { IsOrdered memo.now }
    requires held { AreHeld memo.now.held ids.now }
    ensures { IfOk result (λ nodes. AreGathered memo.now.held ids.now nodes.keys) }
{
    mx_memo_laws::laws::laws();
    let mut nodes = IndexSet::new(alloc);
    for id in ids {
        let Some(body) = memo.body(*id) else {
            unreachable!()
        };
        nodes.insert(body.node.get().copy(alloc)?)?;
    }
    return Ok(nodes);
}

/// These nodes with their texts.
pub(crate) fn rows_of(alloc: Global, nodes: &[Node]) -> Result<Vec<Row>, AllocError>
    ensures { IfOk result (λ rows. rows.items ≡ map row_of nodes.now) }
{
    let mut rows = Vec::new(alloc);
    for node in nodes {
        let mut text = Vec::new(alloc);
        push_node(&mut text, node)?;
        rows.push(Row {
            text: List::from_vec(alloc, text)?,
            node: node.copy(alloc)?,
        })?;
    }
    return Ok(rows);
}

/// The nodes in the order of their texts.
pub(crate) fn by_text(alloc: Global, rows: Vec<Row>) -> Result<Vec<Node>, AllocError>
    ensures { (nodes : Many Asked) → rows.items ≡ map row_of nodes →
        IfOk result (λ sorted. IsPermutation nodes sorted.items × AreByText sorted.items) }
{
    let mut sorted = rows;
    sorted.sort_by(|one, other| one.text.as_slice().cmp(other.text.as_slice()))?;
    let mut nodes = Vec::new(alloc);
    for row in &sorted {
        nodes.push(row.node.copy(alloc)?)?;
    }
    return Ok(nodes);
}
