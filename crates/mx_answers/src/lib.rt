//! What is held of a model, the answers of an evaluation, and what an edit or a clearing keeps, for any model text and
//! any language of formulas. No engine takes part in it.
//!
//! Room: meaning.
#![tactic(auto)]

pub mod laws;
