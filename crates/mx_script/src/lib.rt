//! The commands of a script: what the text of a command says.
//!
//! Room: engine and scripts.
#![tactic(auto)]

mod argument;
mod command;
pub mod commands;
pub mod laws;
pub mod line;
mod table;

pub use command::read_command;
pub use commands::{Commands, Pending};
pub use mx_words::command::{Command, FormRefusal};
