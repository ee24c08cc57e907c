//! Edits of worlds: what one makes is prepared, and then put in place without taking memory. The world of a text that the lines
//! of a project lay out.
//!
//! Room: model text.
#![tactic(auto)]

pub mod complete;
pub mod lines;
mod paths;
pub mod prepare;
