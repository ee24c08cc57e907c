//! The texts that edits of a model text make.
//!
//! Room: model text.
#![tactic(auto)]

mod defined;
pub mod globals;
pub mod inputs;
mod kinds;
pub mod members;
mod parts;
pub mod spaces;
