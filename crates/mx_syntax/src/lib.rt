//! The trees of formulas, with what is read off them: the binding of arguments, the locals, the lines.
//!
//! Room: language.
#![tactic(auto)]

pub mod bind;
pub mod equality;
pub mod expr;
pub mod height;
pub mod locals;
pub mod op;
pub mod stmt;
