//! Drops of held nodes: marks what an edit, a clearing or a roll-back reaches, sweeps it out of the graph and its tables, drops
//! the keys that none reads then, settles the order of what stays, and tells stamps.
//!
//! Room: kept values.
#![tactic(auto)]

pub mod drops;
pub mod inputs;
pub mod marking;
pub mod settle;
pub mod stamps;
pub mod sweep;
pub mod test_of_key;
pub mod test_of_node;
pub mod unread;
