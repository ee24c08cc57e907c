//! What the parsers of the language are made of: tokens as the grammar sees them, a cursor over them, parsers of parts, and the
//! rules for literals, addresses and nodes. The relations that say which tokens spell what stand here too.
//!
//! Room: language.
#![tactic(auto)]

pub mod address;
pub mod cursor;
pub mod literal;
mod nesting;
pub mod refusal;
pub mod source;
mod symbol;
pub mod trouble;
pub mod word;
pub mod words;
