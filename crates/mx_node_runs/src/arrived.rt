//! Where the walk of a node came to.
use mx_list::items::Items;
use mx_value::namespace::Namespace;
use mx_value::node::SharedNode;
use mx_value::value::Value;

/// The namespace that the walk of a node came to, with the node and its arguments.
#[derive(Drop)]
pub struct Arrived<'a> {
    pub node: &'a SharedNode,
    pub arguments: &'a Items<Value>,
    pub space: Namespace,
}
