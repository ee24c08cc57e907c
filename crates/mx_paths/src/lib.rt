//! The table of all static paths of a model text, with the layers of each.
//!
//! Room: model text.
#![tactic(auto)]

pub mod child;
pub mod families;
pub mod family;
pub mod id;
pub mod laws;
pub mod orders;
pub mod refusal;
pub mod table;
pub mod walk;
