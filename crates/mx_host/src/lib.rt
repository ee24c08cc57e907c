//! Standard input, standard output and the working folder as the outside of a run: the trusted edge of the program.
//!
//! They tell no content: what a terminal, a pipe, a file or a folder gives and takes is outside of every proof. Only the
//! counts of their faults are told.
//!
//! Room: engine and scripts.
#![tactic(auto)]

mod files;
mod sink;
mod source;

pub use files::HostFiles;
pub use sink::HostSink;
pub use source::HostSource;
