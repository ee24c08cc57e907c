//! Project folders: the canonical files of a model, how they are written, and how a folder is read as a model.
//!
//! Room: engine and scripts.
#![tactic(auto)]

mod bytes;
mod edits;
mod files;
mod folder;
mod found;
mod inputs;
pub mod laws;
mod lines;
mod model;
mod project;
pub mod read;
pub mod refusal;
mod said;
#[cfg(test)]
mod tests;
pub mod text;
pub mod write;
