//! The parsers of the formula language.
//!
//! Room: language.
#![tactic(auto)]

pub use mx_grammar::refusal::ParseRefusal;
pub use parse::{parse_addr, parse_expr, parse_formula, parse_literal, parse_node, parse_params};

mod block;
pub mod bytes;
mod display;
mod formula;
pub mod laws;
pub mod limits;
mod loops;
mod parameter;
mod parse;
mod statement;
