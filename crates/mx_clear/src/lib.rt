//! Clearings: held nodes that are dropped by hand, each with all held nodes that reach it.
//!
//! Room: kept values.
#![tactic(auto)]

mod clearing;
mod scope;

pub use clearing::{clear_all, clear_cells, clear_node, clear_space};
