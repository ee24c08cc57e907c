//! What clearings keep of what is held. Each is proved as what a function ensures that does nothing.
ghost use Rattle.mx_state_examples.specs.Clearings.{AskedIsCleared, AskerIsCleared, ItemIsCleared, CellsAreCleared, CellsOutsideAreCleared, SpaceIsCleared};

/// A node with what asked it, an item with its cells, cells at one address, and a space with its items.
pub fn clearings()
    ensures asked { AskedIsCleared }
    ensures asker { AskerIsCleared }
    ensures item { ItemIsCleared }
    ensures cells_of_item { CellsAreCleared }
    ensures cells_outside { CellsOutsideAreCleared }
    ensures space { SpaceIsCleared }
{}
