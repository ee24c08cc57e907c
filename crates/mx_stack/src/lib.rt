//! The stack on which formulas run, and what each instruction does to it.
//!
//! Room: machine.
#![tactic(auto)]

pub mod callee;
pub mod displays;
pub mod functions;
pub mod generators;
pub mod jumps;
pub mod operators;
pub mod rest;
pub mod returns;
pub mod slot;
pub mod stack;
pub mod taking;
mod tuples;
pub mod values;
pub mod walks;
pub mod went;
