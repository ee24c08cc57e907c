//! The engine: a world, its edits, and what is held for it.
//!
//! Room: engine and scripts.
#![tactic(auto)]

pub mod clearing;
pub mod editing;
pub mod engine;
pub mod evaluating;
mod gaps;
mod gathering;
mod holds;
pub mod limit;
pub mod order;
mod precedents;
pub mod refusal;
pub mod successors;
