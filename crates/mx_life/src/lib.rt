//! The files of the two sample projects.
//!
//! Room: products and files.
#![tactic(auto)]

mod files;
pub mod project;
