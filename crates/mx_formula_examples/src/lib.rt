//! Worked examples over the definitions of formulas, as theorems, and the rules that they are proved by: for each form, by
//! which events it comes to what it gives.
//!
//! Room: checks.
#![tactic(auto)]

pub mod forms;
pub mod rows;
