//! Held nodes in order of holding, with the keys that their runs looked up and the nodes that they asked.
//!
//! Held nodes and keys are vertices of one graph of reads, so that what a change touches is found along its edges.
//!
//! Room: kept values.
#![tactic(auto)]

mod items;
mod laws;
mod memo;
mod refusal;

pub use laws::laws as memo_laws;
pub use memo::Memo;
pub use mx_invalidation::test_of_key::KeyTest;
pub use mx_invalidation::test_of_node::{Every, NodeTest};
pub use mx_vertices::along::Readers;
pub use mx_vertices::slot::Body;
pub use mx_vertices::standing::Standing;
pub use mx_vertices::walks::{AllKeys, Asks, HeldKeys};
pub use refusal::HoldRefusal;
