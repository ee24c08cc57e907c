//! The laws over the definitions. Each is proved as what a function ensures that does nothing.
ghost use Rattle.mx_suspended.specs.ItemsFirst.{ItemsFirst, WaitsOnTheWay};

/// Whatever keys lead to, a run has asked each item on the way of a node when it comes to ask the node: of what a run
/// asks, nothing lies in the space of an item that the run did not ask. And the bound form of a node lies in the space of
/// each item that the walk of the node asks.
pub fn laws()
    ensures items_first { ItemsFirst }
    ensures waits_on_the_way { WaitsOnTheWay }
{}
