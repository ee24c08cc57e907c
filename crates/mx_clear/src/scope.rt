//! Which held nodes a clearing names.
ghost use Rattle.std.specs.Prelude.{◌≡◌};
ghost use Rattle.mx_value.specs.declared.value.Value.{out-Value};
ghost use Rattle.mx_clear.specs.Scope.{begins_with, is_some_in, space_in};

use mx_memo::{Body, NodeTest};
use mx_value::label::Label;
use mx_value::node::Node;
use mx_value::value::{Addr, Segment, Value};

/// One node.
#[derive(Drop)]
pub struct One<'n> {
    pub node: &'n Node,
}

impl<'n> NodeTest for One<'n> {
    ghost use Rattle.mx_clear.specs.Scope.{is_one};

    ghost goes = { λ s. is_one s.node.now };

    fn is_to_go(&self, body: &Body) -> bool {
        *body.node.get() == *self.node
    }
}

/// The nodes of the cells of a name in a space.
#[derive(Drop)]
pub struct OfCells<'n> {
    pub at: &'n Addr,
    pub name: &'n Label,
}

impl<'n> NodeTest for OfCells<'n> {
    ghost use Rattle.mx_clear.specs.Scope.{is_of_cells};

    ghost goes = { λ s. is_of_cells s.at.now s.name.now };

    fn is_to_go(&self, body: &Body) -> bool {
        match body.node.get() {
            Node::Cell(at, name, _) => *at == *self.at && *name == *self.name,
            Node::Item(_, _) => false,
        }
    }
}

/// Whether an address begins with another.
fn begins_with(at: &[Segment], address: &[Segment]) -> bool
    ensures { result ≡ begins_with at.now address.now }
{
    if address.len() < at.len() {
        return false;
    }
    for place in 0..at.len() {
        if address[place] != at[place] {
            return false;
        }
    }
    true
}

/// Whether a value is a space whose address begins with this one.
fn is_space_in(at: &Addr, value: &Value) -> bool
    ensures { result ≡ is_some_in at.now (space_in (out-Value value.now)) }
{
    match value {
        Value::Space(address) => begins_with(at.as_slice(), address.as_slice()),
        _ => false,
    }
}

/// The nodes of the cells in a space and in those below it, and the items that are such spaces.
#[derive(Drop)]
pub struct OfSpace<'n> {
    pub at: &'n Addr,
}

impl<'n> NodeTest for OfSpace<'n> {
    ghost use Rattle.mx_clear.specs.Scope.{is_in_space};

    ghost goes = { λ s. is_in_space s.at.now };

    fn is_to_go(&self, body: &Body) -> bool {
        match body.node.get() {
            Node::Cell(at, _, _) => begins_with(self.at.as_slice(), at.as_slice()),
            Node::Item(_, _) => is_space_in(self.at, &body.reply.get().value),
        }
    }
}
