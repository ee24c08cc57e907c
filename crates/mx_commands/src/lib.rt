//! The commands of a script: what each does with an engine and with files, and the block that answers it.
//!
//! Room: engine and scripts.
#![tactic(auto)]

mod changes;
mod command;
mod evaluations;
mod held;
pub mod laws;
mod settings;
mod tables;

pub use command::Interpreter;
