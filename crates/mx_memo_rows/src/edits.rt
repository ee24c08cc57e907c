//! Rows that drop what is held.
ghost use Rattle.std.specs.Prelude.{◌≡◌};
ghost use Rattle.mx_memo_rows.specs.Edited.{has_node};

use crate::reading::{push_counted, two_parts};
use crate::samples::{name, node};
use crate::trouble::Trouble;
use mx_edit::key::Key;
use mx_memo::{Body, Every, KeyTest, Memo, NodeTest};
use mx_value::label::Label;
use mx_value::node::SharedNode;
use mx_vertices::finding::node_laws;
use std::alloc::Global;

/// Whether a node is one of these.
fn has_node(nodes: &[SharedNode], node: &SharedNode) -> bool
    ensures { result ≡ has_node nodes.now node.now }
{
    for other in nodes {
        if *other == *node {
            return true;
        }
    }
    false
}

/// An edit that changes a reference of the model, and the inputs of some nodes.
#[derive(Drop)]
pub struct Edited {
    pub name: Label,
    pub inputs: Vec<SharedNode>,
}

impl KeyTest for Edited {
    ghost use Rattle.mx_memo_rows.specs.Edited.{changed_in};

    ghost changed = { λ s k. changed_in s.name s.inputs.items k };

    fn is_changed(&self, key: &Key) -> bool {
        match key {
            Key::Global(name) => *name == self.name,
            Key::Input(node) => has_node(&self.inputs, node),
            Key::Name(_, _) => false,
            Key::Cells(_, _) => false,
            Key::Params(_) => false,
            Key::Exists(_) => false,
            Key::Table(_) => false,
        }
    }

    fn changed_inputs(&self) -> &[SharedNode] {
        node_laws();
        self.inputs.as_slice()
    }
}

/// One node is to go.
#[derive(Drop)]
pub struct OneNode {
    pub node: SharedNode,
}

impl NodeTest for OneNode {
    ghost use Rattle.mx_value.specs.Equality.{node_eq};

    ghost goes = { λ s body. node_eq body.node s.node };

    fn is_to_go(&self, body: &Body) -> bool {
        body.node == self.node
    }
}

/// `back NUMBER`: rolls back to the stamp so many before the last.
pub fn roll_back(memo: &mut Memo, rest: &str) -> Result<(), Trouble> {
    let back = rest.parse::<u8>()?;
    memo.roll_back_to(memo.last_stamp().saturating_sub(usize::from(back)));
    Ok(())
}

/// `edit NAME NODE`: drops what a change of a reference and of an input touches. The answer is how many nodes went.
pub fn edit(alloc: Global, memo: &mut Memo, rest: &str, out: &mut Vec<u8>) -> Result<(), Trouble> {
    let (changed, input) = two_parts(rest)?;
    let name = name(alloc, changed.parse::<u8>()?)?;
    let test = edit_of(alloc, name, node(alloc, input.parse::<u8>()?)?)?;
    push_count(memo.keep_unchanged(&test), out)
}

/// The change of a reference and of an input.
fn edit_of(alloc: Global, name: Label, input: SharedNode) -> Result<Edited, Trouble> {
    let mut inputs = Vec::new(alloc);
    inputs.push(input)?;
    Ok(Edited { name, inputs })
}

/// `drop NODE`: drops a node and what reaches it. The answer is how many nodes went.
pub fn drop_one(
    alloc: Global,
    memo: &mut Memo,
    rest: &str,
    out: &mut Vec<u8>,
) -> Result<(), Trouble> {
    let node = node(alloc, rest.parse::<u8>()?)?;
    push_count(memo.drop_where(&OneNode { node }), out)
}

/// `drop_all`. The answer is how many nodes went.
pub fn drop_all(memo: &mut Memo, out: &mut Vec<u8>) -> Result<(), Trouble> {
    push_count(memo.drop_where(&Every), out)
}

/// Adds a number behind a space.
fn push_count(count: u32, out: &mut Vec<u8>) -> Result<(), Trouble> {
    push_counted(out, b" ", u64::from(count))
}
