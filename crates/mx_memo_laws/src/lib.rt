//! What a memo holds, as the meaning of nodes speaks of it: entries that name the nodes that they asked, where the memo
//! has ids. No engine takes part in it.
//!
//! Room: kept values.
#![tactic(auto)]

pub mod keeping;
pub mod laws;
