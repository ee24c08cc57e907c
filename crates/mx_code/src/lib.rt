//! Formulas as flat lists of instructions, for every form of expression and statement: what the code of a formula is, and
//! the compiler that makes exactly it.
//!
//! Room: code.
#![tactic(auto)]

pub mod action;
pub mod code;
pub mod compile;
pub mod compiled;
mod emit;
mod expressions;
mod fused;
mod statements;
