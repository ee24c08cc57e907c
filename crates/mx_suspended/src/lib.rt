//! Runs in flight over any model: what holds of those that wait and of the one on top, whatever runs them, and what an
//! evaluation answers as they end.
//!
//! Room: meaning.
#![tactic(auto)]

pub mod items_first;
pub mod laws;
