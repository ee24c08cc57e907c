//! What a formula's run looks up by name, where it runs, and how it ends.
//!
//! Room: machine.
#![tactic(auto)]

mod addresses;
pub mod ending;
pub mod home;
pub mod names;
mod overlays;
mod references;
mod targets;
