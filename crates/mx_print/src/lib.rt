//! The printed text of formulas, parameter lists, values and nodes.
//!
//! Room: language.
#![tactic(auto)]

pub mod append;
pub mod count;
mod expr;
pub mod formula;
pub mod line;
mod nodes;
mod seen;
mod sink;
mod statement;
pub mod value;
