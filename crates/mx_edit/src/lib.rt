//! What an edit of a model is and why it is refused, what a run looks up in a model and finds there, and what is held
//! of a node: types that the model, the meaning and the engine share.
//!
//! Room: model text.
#![tactic(auto)]

pub mod copies;
pub mod edit;
pub mod equality;
pub mod key;
pub mod reference;
pub mod refusal;
pub mod reply;
pub mod scope;
pub mod table;
