//! The turns of an evaluation: runs that begin, wait for one another and give their replies, on one explicit stack.
//!
//! Room: machine.
#![tactic(auto)]

pub mod asking;
pub mod begin;
pub mod current;
pub mod end;
pub mod give;
pub mod hand;
pub mod hold;
pub mod known;
pub mod passing;
pub mod progress;
pub mod resuming;
pub mod rings;
pub mod runs;
pub mod step;
pub mod steps;
pub mod wait;
