//! Edits of a model text: why one is refused by what the text holds, and the text that it makes.
//!
//! Room: model text.
#![tactic(auto)]

pub mod bound;
pub mod counts;
mod displays;
pub mod edits;
pub mod laws;
mod lengths;
mod own;
mod refusals;
pub mod statics;
pub mod values;
