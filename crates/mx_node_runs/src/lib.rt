//! The run of a node: from its beginning, or from an answer, to its end or its next ask.
//!
//! Room: machine.
#![tactic(auto)]

mod arguments;
mod arrived;
mod cells;
mod code;
pub mod halt;
mod input;
mod items;
pub mod runs;
