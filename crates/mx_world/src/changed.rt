//! Which keys are changed between two worlds.
ghost use Rattle.std.specs.Prelude.{◌≡◌, ◌↔◌, IsTrue, Option, option_copied};
ghost use Rattle.mx_model.specs.Keys.{params_of, global_of, value_of, table_of, key_result, IsChanged};
ghost use Rattle.mx_world.specs.Bound.{told_name, told_cells};

use crate::bound::{Bound, BoundCells};
use crate::world::World;
use mx_code::compiled::CompiledParams;
use mx_edit::key::Key;
use mx_edit::reference::RefValue;
use mx_edit::table::Table;
use mx_value::value::Value;

/// Whether what a key leads to differs between two worlds.
pub fn key_changed(before: &World, after: &World, key: &Key) -> bool
    ensures { IsTrue result ↔ IsChanged before.now after.now key.now }
{
    return !is_kept(before, after, key);
}

/// Whether a key leads to the same in two worlds.
fn is_kept(before: &World, after: &World, key: &Key) -> bool
    ensures { IsTrue result ↔ (key_result before.now key.now ≡ key_result after.now key.now) }
{
    match key {
        Key::Name(path, name) => {
            return same_name(before.name(path, name), after.name(path, name));
        }
        Key::Cells(path, name) => {
            return same_cells(before.compiled(path, name), after.compiled(path, name));
        }
        Key::Params(path) => return same_params(before.params(path), after.params(path)),
        Key::Exists(path) => return before.exists(path) == after.exists(path),
        Key::Global(name) => return same_global(before.global(name), after.global(name)),
        Key::Input(node) => {
            return same_value(before.input(node.get()), after.input(node.get()));
        }
        Key::Table(name) => return same_table(before.table(name), after.table(name)),
    }
}

/// Whether two names are bound to the same.
fn same_name(one: Bound<'_>, other: Bound<'_>) -> bool
    ensures { IsTrue result ↔ (told_name one.entry ≡ told_name other.entry) }
{
    match (one, other) {
        (Bound::CellsHere, Bound::CellsHere) => return true,
        (Bound::Child, Bound::Child) => return true,
        (Bound::Missing, Bound::Missing) => return true,
        (Bound::Ref(one), Bound::Ref(other)) => {
            return one.value == other.value && one.owner == other.owner;
        }
        _ => return false,
    }
}

/// Whether two cells are the same.
fn same_cells(one: Option<BoundCells<'_>>, other: Option<BoundCells<'_>>) -> bool
    ensures { IsTrue result ↔ (told_cells one.entry ≡ told_cells other.entry) }
{
    match (one, other) {
        (Some(one), Some(other)) => {
            return one.formula.formula() == other.formula.formula()
                && one.allow_none == other.allow_none;
        }
        (None, None) => return true,
        _ => return false,
    }
}

/// Whether two parameter lists are the same.
fn same_params(one: Option<&CompiledParams>, other: Option<&CompiledParams>) -> bool
    ensures { IsTrue result ↔
        (params_of (option_copied one.entry) ≡ params_of (option_copied other.entry)) }
{
    match (one, other) {
        (Some(one), Some(other)) => return one.params() == other.params(),
        (None, None) => return true,
        _ => return false,
    }
}

/// Whether two references of models are the same.
fn same_global(one: Option<&RefValue>, other: Option<&RefValue>) -> bool
    ensures { IsTrue result ↔
        (global_of (option_copied one.entry) ≡ global_of (option_copied other.entry)) }
{
    match (one, other) {
        (Some(one), Some(other)) => return one == other,
        (None, None) => return true,
        _ => return false,
    }
}

/// Whether two values that were put in are the same.
fn same_value(one: Option<&Value>, other: Option<&Value>) -> bool
    ensures { IsTrue result ↔
        (value_of (option_copied one.entry) ≡ value_of (option_copied other.entry)) }
{
    match (one, other) {
        (Some(one), Some(other)) => return one == other,
        (None, None) => return true,
        _ => return false,
    }
}

/// Whether two tables are the same.
fn same_table(one: Option<&Table>, other: Option<&Table>) -> bool
    ensures { IsTrue result ↔
        (table_of (option_copied one.entry) ≡ table_of (option_copied other.entry)) }
{
    match (one, other) {
        (Some(one), Some(other)) => return one == other,
        (None, None) => return true,
        _ => return false,
    }
}
