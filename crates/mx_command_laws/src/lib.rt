//! What sources spell is within the limits of values: formulas and parameter lists have small literals, and nodes are proper.
//!
//! Room: meaning.
#![tactic(auto)]

pub mod commands;
pub mod edits;
pub mod sources;
