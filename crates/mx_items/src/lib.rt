//! Item spaces: the namespace that an address leads to, by the namespaces that are held for the items on the way.
//!
//! Room: kept values.
#![tactic(auto)]

mod held;
mod refusal;
mod store;
mod way;

pub use held::ItemNamespaces;
pub use refusal::ItemsRefusal;
pub use store::ItemStore;
pub use way::space_of;
