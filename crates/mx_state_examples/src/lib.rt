//! Worked examples over model texts, as theorems.
//!
//! Room: checks.
#![tactic(auto)]

pub mod clearings;
pub mod evaluations;
pub mod rings;
pub mod rows;
