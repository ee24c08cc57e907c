//! What stands in one place of the stack.
use crate::rest::{Coming, Onward};
use mx_list::items::Items;
use mx_ops::builtin::Builtin;
use mx_value::label::Label;
use mx_value::namespace::Namespace;
use mx_value::value::Value;

/// What stands in one place of the stack.
#[derive(Drop)]
pub enum Slot {
    Holds(Value),
    /// A function that a formula can always call, which is called next.
    Calls(Builtin),
    /// The rest of a walk, and the namespace that it came to, where there is one.
    Way(Onward, Option<Namespace>),
    /// The items that are still to come.
    Items(Coming),
    /// What a generator made so far.
    Collected(Items<Value>),
    /// The references and the base of a display so far.
    Shown(Items<(Label, Value)>, Option<Box<Value>>),
    /// A local that is not set.
    Unset,
}
