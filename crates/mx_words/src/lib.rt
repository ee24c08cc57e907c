//! The words of commands, the small languages behind them, and the parts of a command that are in them.
//!
//! Room: engine and scripts.
#![tactic(auto)]

pub mod command;
pub mod head;
pub mod part;
pub mod phrase;
pub mod scan;
pub mod table;
pub mod text;
