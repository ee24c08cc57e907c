//! What stands between the tokens of a source, how far each reaches, and where NEWLINE, INDENT and DEDENT stand: said of the
//! bytes and the tokens alone.
//!
//! Room: language.
#![tactic(auto)]

pub mod laws;
