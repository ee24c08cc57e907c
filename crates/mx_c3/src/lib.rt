//! C3 linearisation: in which order a space takes its bases' members.
//!
//! The definition is the published one (Barrett and others, "A monotonic superclass linearization for Dylan", 1996), which is also
//! Python's method resolution order.
//!
//! Room: model text.
#![tactic(auto)]

mod counts;
pub mod laws;
pub mod linearise;
pub mod lists;
pub mod merge;
pub mod refusal;
pub mod remaining;
pub mod space;
pub mod table;
