//! The texts of values, addresses, nodes and reads, of why evaluations, edits, sources, files, tables and commands are refused, and
//! of the blocks that answer the commands of a script.
//!
//! Room: engine and scripts.
#![tactic(auto)]

pub mod address;
pub mod blocks;
mod counted;
pub mod edit;
pub mod evaluation;
mod file;
pub mod form;
pub mod parsing;
pub mod reads;
pub mod table;
pub mod value;
