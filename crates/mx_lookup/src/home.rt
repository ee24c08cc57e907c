//! Where a formula runs.
use mx_list::items::Items;
use mx_value::label::Label;
use mx_value::namespace::Namespace;
use mx_value::node::SharedNode;
use mx_value::value::Value;

/// Where a formula runs: for its node, with names that are looked up in this namespace.
#[derive(Drop)]
pub struct Home {
    pub node: SharedNode,
    pub space: Namespace,
    pub work: Work,
}

/// What a run makes of what its formula returns.
#[derive(Drop)]
pub enum Work {
    /// The value of cells, which may be None or not.
    Cells {
        allow_none: bool,
    },
    /// The item of these arguments, with the parameters that they are given for.
    Item {
        arguments: Items<Value>,
        given: Items<(Label, Value)>,
    },
}
