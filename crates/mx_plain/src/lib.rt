//! The two products as plain recursions by month, with no engine: what an audit compares a model's answers with.
//!
//! Room: products and files.
#![tactic(auto)]

mod base;
mod number;
pub mod projection;
pub mod savings;
pub mod term;
mod worth;
