//! Which held nodes stay where one world takes the place of another.
//!
//! Room: kept values.
#![tactic(auto)]

pub mod inputs;
pub mod retain;
