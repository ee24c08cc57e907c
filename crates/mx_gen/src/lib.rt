//! The generated model: a model text of any size for measurements, the same for the same seed.
//!
//! Room: products and files.
#![tactic(auto)]

mod formula;
pub mod make;
