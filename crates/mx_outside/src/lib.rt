//! The outside as traits: a source that has bytes left, a sink that takes bytes and files by their names, each with
//! counts of its faults.
//!
//! Nothing above these traits can raise a count, so whoever answers that a read or a write failed can be held to it:
//! the count rose in that very call. What a source has left and what a sink has taken are told as lists of bytes, and
//! what files hold as a finite map, where the form knows them, as those in memory do; the real standard input and output
//! and the real files do not tell them.
//!
//! Room: foundations.
#![tactic(auto)]

mod files;
mod memory;
mod name;
mod sink;
mod source;
mod sure;

pub use files::{Files, Found, MAX_FILE, ReadFailure};
pub use memory::{MemFiles, MemSink, MemSource};
pub use name::is_file_name;
pub use sink::{Sink, WriteFailure, write_whole};
pub use source::{Failed, Source};
pub use sure::{SureFiles, SureSink, SureSource};
