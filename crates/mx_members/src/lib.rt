//! Members by key, whose copies share what they are made of.
//!
//! Room: model text.
#![tactic(auto)]

pub mod chunks;
pub mod keys;
pub mod members;
pub mod share;
mod sought;
