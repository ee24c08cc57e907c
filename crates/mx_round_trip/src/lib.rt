//! Printing and parsing are inverse: what a text spells is what its printed text spells.
//!
//! Room: language.
#![tactic(auto)]

pub mod laws;
pub mod typed;
