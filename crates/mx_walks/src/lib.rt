//! Walks of addresses, calls and subscripts over a world.
//!
//! Room: machine.
#![tactic(auto)]

pub mod called;
pub mod calls;
mod cells;
mod copies;
mod going;
pub mod items;
pub mod laws;
pub mod near;
pub mod spaces;
mod tables;
pub mod walks;
