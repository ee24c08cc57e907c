//! The meaning of a model text and the right state of an engine: evaluations, edits and clearings, over what keys lead to in
//! the text. No engine takes part in it.
//!
//! Room: meaning.
#![tactic(auto)]

pub mod laws;
