//! What the definitions of answers and of what is held say of a small model.
//!
//! Room: checks.
#![tactic(auto)]

pub mod examples;
pub mod flights;
