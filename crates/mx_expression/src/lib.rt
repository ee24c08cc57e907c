//! Expressions.
//!
//! Room: language.
#![tactic(auto)]

mod chain;
mod chain_tree;
mod comparison;
mod conditional;
mod connective;
pub mod expression;
pub mod loops;
mod operand;
pub mod reading;
mod trailer;
mod tree;
