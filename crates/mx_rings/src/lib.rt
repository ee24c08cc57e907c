//! Rings of spaces: from each space one comes to its children and to its bases.
//!
//! Room: model text.
#![tactic(auto)]

mod links;
pub mod rings;
pub mod search;
