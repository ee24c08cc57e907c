//! Where a run stops.
use mx_lookup::ending::Ending;
use mx_stack::rest::Onward;
use mx_value::node::SharedNode;

/// How a run goes on with the answer of a node.
#[derive(Drop)]
pub enum Resume {
    /// With the answer's value on its stack, behind its instruction.
    Value,
    /// With the answer's namespace, from where these segments are still to go.
    Walk(Onward),
}

/// Where a run stops: at its end, or at a node that it asks.
#[derive(Drop)]
pub enum Stop {
    Ends(Ending),
    Asks(SharedNode, Resume),
}
