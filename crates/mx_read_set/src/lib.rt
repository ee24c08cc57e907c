//! What a run has read so far, and how what comes of an instruction goes on past that.
//!
//! Room: machine.
#![tactic(auto)]

pub mod distinct;
pub mod seen;
