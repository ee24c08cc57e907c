//! Laws over the entries of a memo. Each is proved as what a function ensures that does nothing.
ghost use Rattle.mx_memo_laws.specs.Laws.{HeldIsEntered, EnteredIsHeld, NewIsNotEntered, EntryIsOfBody, BodyIsEntered, OneUnderId, BodyIsOfNode, AsksAreEntered, AsManyEntries, OrderIsOfHeld, ReadIsEntered, Holding, LastIsHeld, GrownFromItself, GrowsByHolding, HeldStays, EntriesStay, RollingBack, Retention, Clearing, Renumbering, NamespaceIsEntered, NoNamespaceIsHeld, AskersAreEntered, ReadersAreEntered};

/// What a memo does to the nodes that it holds under ids, it does to the entries that name them.
pub fn laws()
    ensures held_is_entered { HeldIsEntered }
    ensures entered_is_held { EnteredIsHeld }
    ensures new_is_not_entered { NewIsNotEntered }
    ensures entry_is_of_body { EntryIsOfBody }
    ensures body_is_entered { BodyIsEntered }
    ensures one_under_id { OneUnderId }
    ensures body_is_of_node { BodyIsOfNode }
    ensures asks_are_entered { AsksAreEntered }
    ensures as_many_entries { AsManyEntries }
    ensures order_is_of_held { OrderIsOfHeld }
    ensures read_is_entered { ReadIsEntered }
    ensures holding { Holding }
    ensures last_is_held { LastIsHeld }
    ensures grown_from_itself { GrownFromItself }
    ensures grows_by_holding { GrowsByHolding }
    ensures held_stays { HeldStays }
    ensures entries_stay { EntriesStay }
    ensures rolling_back { RollingBack }
    ensures retention { Retention }
    ensures clearing { Clearing }
    ensures renumbering { Renumbering }
    ensures namespace_is_entered { NamespaceIsEntered }
    ensures no_namespace_is_held { NoNamespaceIsHeld }
    ensures askers_are_entered { AskersAreEntered }
    ensures readers_are_entered { ReadersAreEntered }
{}
