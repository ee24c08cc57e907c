//! Rings over texts that edits make. Each is proved as what a function ensures that does nothing.
ghost use Rattle.mx_state_examples.specs.Rings.{ItemAsksItself, CellsAskEachOther, MendedRing};

/// An item that asks itself, cells that ask each other, and what they mean once one of them is mended.
pub fn rings()
    ensures item_asks_itself { ItemAsksItself }
    ensures cells_ask_each_other { CellsAskEachOther }
    ensures mended_ring { MendedRing }
{}
