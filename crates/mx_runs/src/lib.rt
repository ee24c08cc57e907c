//! Runs of nodes as conversations with a model text and with other nodes, for any text and any language of formulas:
//! what nodes mean, what they reach and what they rest on. No engine takes part in it.
//!
//! Room: meaning.
#![tactic(auto)]

pub mod laws;
