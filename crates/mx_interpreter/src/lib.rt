//! Runs the instructions of a formula over a world.
//!
//! Room: machine.
#![tactic(auto)]

pub mod ahead;
mod attributes;
mod calls;
mod fused;
mod instructions;
pub mod laws;
mod names;
mod plain;
pub mod run;
mod step;
pub mod stepped;
mod taking;
mod walking;
