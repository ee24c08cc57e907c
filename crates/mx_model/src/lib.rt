//! The model text: what a model is made of, and what each key leads to in it.
//!
//! Room: model text.
#![tactic(auto)]

pub mod address;
mod beside;
mod held;
pub mod keys;
pub mod kind;
pub mod laws;
pub mod layers;
pub mod lookup;
mod replace;
mod share;
pub mod space;
pub mod spaces;
pub mod tables;
pub mod text;
