//! That held nodes stay proper: whatever formulas compute from literals within the limits on size and nesting is within
//! them, and nodes are asked with plain arguments alone. No engine takes part in it.
//!
//! Room: meaning.
#![tactic(auto)]

pub mod laws;
