//! Laws of the definitions.
ghost use Rattle.mx_model.specs.Laws.{ChangesAreTold};
ghost use Rattle.mx_model.specs.Sound.{ValidIsSound, RinglessIsSound, ChildrenAreDistinct, LayersAreSpaces, ValidHasOrders};
ghost use Rattle.mx_model.specs.Rows.{DiamondInOrder, CrossedHasNoOrder, ChildIsDerived, HiddenChildStays, NoBaseNoChild, BaseBringsItsRecord, RefusalsInTurn, ChildAsBaseIsRing};

/// The test of changed keys says exactly where what a key leads to differs, for proofs. Does nothing when it runs.
pub fn key_laws()
    ensures { ChangesAreTold }
{}

/// What the definitions say of small models, for proofs: the layers of a diamond of bases, bases without an order, derived
/// and hidden children, what a base brings, and the refusals of edits. Does nothing when it runs.
pub fn small_models()
    ensures diamond { DiamondInOrder }
    ensures crossed { CrossedHasNoOrder }
    ensures derived { ChildIsDerived }
    ensures hidden { HiddenChildStays }
    ensures no_base { NoBaseNoChild }
    ensures alone { BaseBringsItsRecord }
    ensures refusals { RefusalsInTurn }
    ensures ring { ChildAsBaseIsRing }
{}

/// What holds of all layers, for proofs: a valid text has bases that can be linearised and distinct paths, and so has any
/// without rings whose paths and bases are distinct; then distinct spaces have distinct children and layers are distinct
/// spaces; and no path of a valid text lacks an order. Does nothing when it runs.
pub fn layer_laws()
    ensures sound { ValidIsSound }
    ensures ringless { RinglessIsSound }
    ensures children { ChildrenAreDistinct }
    ensures layers { LayersAreSpaces }
    ensures orders { ValidHasOrders }
{}
