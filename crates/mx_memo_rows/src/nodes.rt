//! The nodes and keys that are measured.
ghost use Rattle.std.specs.Prelude.{◌≡◌, IfSome};

use crate::edits::Edited;
use mx_edit::key::Key;
use mx_edit::reply::Reply;
use mx_list::items::Items;
use mx_list::list::List;
use mx_list::shared::Shared;
use mx_memo::Body;
use mx_value::label::Label;
use mx_value::node::{Node, Path, SharedNode};
use mx_value::read::Reads;
use mx_value::value::{Addr, Segment, Value};
use std::alloc::Global;

/// What the nodes and keys share.
#[derive(Drop)]
pub struct Parts {
    /// `Main`.
    static_space: Addr,
    /// `S[1]`.
    item_space: Addr,
    cells: Label,
    reads: Reads,
    /// The three keys of each node.
    pub keys: Vec<Key>,
}

fn label(alloc: Global, bytes: &[u8]) -> Option<Label> {
    Label::new(alloc, bytes).ok()
}

fn path(alloc: Global, name: &[u8]) -> Option<Path> {
    let mut names = Vec::new(alloc);
    names.push(label(alloc, name)?).ok()?;
    List::from_vec(alloc, names).ok()
}

fn space(alloc: Global, name: &[u8], is_item: bool) -> Option<Addr> {
    let mut segments = Vec::new(alloc);
    segments.push(Segment::Name(label(alloc, name)?)).ok()?;
    if is_item {
        let mut arguments = Items::new(alloc);
        arguments.push(Value::Int(1)).ok()?;
        segments.push(Segment::Item(arguments)).ok()?;
    }
    List::from_vec(alloc, segments).ok()
}

/// An edit of a reference of the model that no node looks up.
pub fn unread_edit(alloc: Global) -> Option<Edited> {
    let name = label(alloc, b"z")?;
    let inputs = Vec::new(alloc);
    Some(Edited { name, inputs })
}

impl Parts {
    pub fn new(alloc: Global) -> Option<Parts> {
        let main = path(alloc, b"Main")?;
        let mut keys = Vec::new(alloc);
        let cells = label(alloc, b"f")?;
        keys.push(Key::Cells(main.copy().ok()?, cells.copy().ok()?))
            .ok()?;
        keys.push(Key::Name(main, label(alloc, b"x")?)).ok()?;
        keys.push(Key::Global(label(alloc, b"y")?)).ok()?;
        Some(Parts {
            static_space: space(alloc, b"Main", false)?,
            item_space: space(alloc, b"S", true)?,
            reads: List::empty(alloc).ok()?,
            keys,
            cells,
        })
    }

    /// The node of a number: `Main.f(n)` for even ones and `S[1].f(n)` for others.
    pub fn node(&self, alloc: Global, n: u32) -> Option<SharedNode> {
        let at = if n % 2 == 0 {
            self.static_space.copy().ok()?
        } else {
            self.item_space.copy().ok()?
        };
        let mut arguments = Items::with_capacity(alloc, 1).ok()?;
        arguments.push(Value::Int(i64::from(n))).ok()?;
        SharedNode::new(alloc, Node::Cell(at, self.cells.copy().ok()?, arguments)).ok()
    }

    /// What is held of a node.
    pub fn body(&self, alloc: Global, node: SharedNode) -> Option<Body>
        ensures { IfSome result (λ body. body.node ≡ node) }
    {
        let reply = Reply {
            value: Value::Int(1),
            namespace: None,
        };
        Some(Body {
            node,
            reply: Shared::new(alloc, reply).ok()?,
            reads: self.reads.copy().ok()?,
        })
    }
}
