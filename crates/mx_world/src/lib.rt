//! A valid model text with the table of its static paths, and what each key leads to in it.
//!
//! Room: model text.
#![tactic(auto)]

pub mod bound;
pub mod changed;
pub mod laws;
pub mod world;
