//! Held nodes and the keys that they look up as vertices of one graph of reads: their slots and places, the tables that find
//! them, holding, and walks along what they read.
//!
//! Room: kept values.
#![tactic(auto)]

pub mod along;
pub mod finding;
pub mod holding;
pub mod inputs;
pub mod slot;
pub mod standing;
pub mod vertices;
pub mod walks;
