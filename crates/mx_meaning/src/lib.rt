//! What every form of formula and every kind of node does, as a conversation with a model text and with other nodes. It
//! knows no model text: whatever a run learns of the model it learns by looking keys up.
//!
//! Room: meaning.
#![tactic(auto)]

pub mod laws;
