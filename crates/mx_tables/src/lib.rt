//! Tables in files: records of fields as comma-separated values, the numbers that fields say, and the text of a table.
//!
//! Fields are read as they stand, so a blank beside a number makes it none.
//!
//! Room: products and files.
#![tactic(auto)]

pub mod laws;
pub mod number;
pub mod read;
pub mod records;
pub mod write;
