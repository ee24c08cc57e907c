//! The evaluation of a node that is asked from outside, and its bound form.
//!
//! Room: machine.
#![tactic(auto)]

pub mod arriving;
pub mod behind;
pub mod bound;
pub mod closing;
pub mod evaluating;
pub mod machine;
pub mod seeking;
