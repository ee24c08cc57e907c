//! Edits of a model text, whole but for the walk over its static paths.
//!
//! Room: model text.
#![tactic(auto)]

pub mod fitting;
pub mod laid;
pub mod unfit;
pub mod whole;
