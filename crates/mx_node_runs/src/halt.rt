//! Where the run of a node halts, and how it goes on from there.
use mx_code::code::Code;
use mx_interpreter::stepped::Resume;
use mx_list::shared::Shared;
use mx_lookup::ending::Ending;
use mx_lookup::home::Home;
use mx_stack::rest::Onward;
use mx_value::node::SharedNode;

/// How a run goes on with the reply of the node that it asks.
#[derive(Drop)]
pub enum Waiting {
    /// On the walk of its address, through these segments.
    OnWay(Onward),
    /// In the code of its formula.
    InCode(InCode),
}

/// The code of a formula that goes on with a reply.
#[derive(Drop)]
pub struct InCode {
    pub home: Shared<Home>,
    pub code: Shared<Code>,
    pub resume: Resume,
}

/// Where a run halts.
#[derive(Drop)]
pub enum Halt {
    Ends(Ending),
    /// It asks a node.
    Asks(SharedNode, Waiting),
}
