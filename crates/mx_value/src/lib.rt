//! The values of the engine: what cells hold, and the names, addresses and nodes that lead to them.
//!
//! Room: foundations.
#![tactic(auto)]

pub mod copies;
pub mod equality;
pub mod fault;
pub mod fixed;
pub mod label;
pub mod name;
pub mod namespace;
pub mod nesting;
pub mod node;
pub mod normal;
pub mod plain;
pub mod read;
pub mod refusal;
pub mod rounding;
pub mod size;
pub mod value;
