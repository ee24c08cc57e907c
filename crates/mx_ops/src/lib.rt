//! What operators give: a table of rows over all kinds of values, and the calls that go by it.
//!
//! Room: operators.
#![tactic(auto)]

pub mod answer;
pub mod apply;
mod binary;
pub mod builtin;
pub mod compute;
pub mod decimal;
pub mod index;
pub mod number;
pub mod op;
pub mod order;
pub mod parts;
pub mod range;
pub mod text;
pub mod truth;
pub mod tuple;
mod unary;
pub mod whole;
