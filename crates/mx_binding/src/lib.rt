//! The bound form of a node by what is held, and what is recorded of a run so far.
//!
//! Room: machine.
#![tactic(auto)]

pub mod asks;
pub mod bound;
pub mod records;
pub mod settled;
pub mod walking;
