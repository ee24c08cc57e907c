//! What a text holds beside its spaces.
ghost use Rattle.std.specs.Prelude.{◌≡◌, [], IfOk};

use mx_edit::reference::RefValue;
use mx_edit::table::Table;
use mx_list::shared::Shared;
use mx_members::members::Members;
use mx_members::share::Share;
use mx_value::label::Label;
use mx_value::node::Node;
use mx_value::value::Value;
use std::alloc::{AllocError, Global};
use std::hash::Hash;

/// The references of the model, the inputs and the tables.
#[derive(Drop)]
pub(crate) struct Held {
    pub globals: Shared<Members<Label, RefValue>>,
    pub inputs: Shared<Members<Node, Shared<Value>>>,
    pub tables: Shared<Members<Label, Table>>,
}

/// The same ones, shared.
pub(crate) fn copy_held(
    globals: &Shared<Members<Label, RefValue>>,
    inputs: &Shared<Members<Node, Shared<Value>>>,
    tables: &Shared<Members<Label, Table>>,
) -> Result<Held, AllocError>
    ensures globals { IfOk result (λ h. h.globals ≡ globals.now) }
    ensures inputs { IfOk result (λ h. h.inputs ≡ inputs.now) }
    ensures tables { IfOk result (λ h. h.tables ≡ tables.now) }
{
    let globals = globals.copy()?;
    let inputs = inputs.copy()?;
    let tables = tables.copy()?;
    Ok(Held {
        globals,
        inputs,
        tables,
    })
}

/// Nothing of any kind.
pub(crate) fn nothing_held(alloc: Global) -> Result<Held, AllocError>
    ensures globals { IfOk result (λ h. h.globals ≡ []) }
    ensures inputs { IfOk result (λ h. h.inputs ≡ []) }
    ensures tables { IfOk result (λ h. h.tables ≡ []) }
{
    let globals = no_members(alloc)?;
    let inputs = no_members(alloc)?;
    let tables = no_members(alloc)?;
    Ok(Held {
        globals,
        inputs,
        tables,
    })
}

/// No members of a kind.
pub(crate) fn no_members<K: Eq + Hash + Share, X: Share>(
    alloc: Global,
) -> Result<Shared<Members<K, X>>, AllocError>
    ensures { IfOk result (λ members. members ≡ []) }
{
    let members = Members::new(alloc)?;
    Shared::new(alloc, members)
}
