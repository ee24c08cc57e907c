//! What instructions do, and the law that the instructions of a formula do what it means.
//!
//! Room: code.
#![tactic(auto)]

pub mod laws;
