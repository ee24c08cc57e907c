//! What a clearing drops.
use mx_value::label::Label;
use mx_value::node::Node;
use mx_value::value::Addr;

/// The held nodes that are dropped, and with them all held nodes that reach one of them.
#[derive(Drop)]
pub enum Scope {
    /// Every node.
    All,
    /// The nodes of cells at addresses that begin with this one, and the item nodes whose space is at such an address.
    Space(Addr),
    /// The nodes of the cells of this name at exactly this address.
    Cells(Addr, Label),
    /// This node.
    One(Node),
}
