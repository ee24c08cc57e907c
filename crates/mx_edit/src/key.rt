//! Keys: what a run looks up in a model text, and what it finds.
ghost use Rattle.std.specs.Prelude.{◌≡◌, IfOk};

use crate::copies::{copy_formula, copy_params};
use crate::reference::RefValue;
use crate::table::Table;
use mx_list::shared::Shared;
use mx_syntax::stmt::{Formula, Params};
use mx_value::label::Label;
use mx_value::node::{Path, SharedNode};
use mx_value::value::Value;
use std::alloc::AllocError;

/// What a run looks up in the model text. It learns of the text in no other way.
#[derive(PartialEq, Eq, Hash, Drop)]
pub enum Key {
    /// What the first layer of a path that knows a name binds it to.
    Name(Path, Label),
    /// A reference of the model.
    Global(Label),
    /// The formula of the cells that a path binds to a name, and whether they may give None.
    Cells(Path, Label),
    /// The parameters of a path.
    Params(Path),
    /// Whether a path is a static one.
    Exists(Path),
    /// The value that was put in for a node.
    Input(SharedNode),
    /// A table.
    Table(Label),
}

/// What a key leads to in a model text. A key is changed between two texts where these differ.
#[derive(PartialEq, Eq, Drop)]
pub enum KeyResult {
    /// Nothing is there.
    Missing,
    /// The name is bound to cells.
    CellsHere,
    /// The name is that of a child space.
    Child,
    /// The name is bound to a reference: its value as written, and the path of the space that defines it, which is
    /// empty for a reference of the model.
    Ref { value: RefValue, owner: Path },
    /// The cells' formula and setting.
    Formula { formula: Formula, allow_none: bool },
    /// The parameters.
    Params(Params),
    /// The path is there.
    There,
    /// The value that was put in.
    Value(Shared<Value>),
    /// The table.
    Table(Table),
}

impl Key {
    /// An equal key, which shares all that it holds.
    pub fn copy(&self) -> Result<Key, AllocError>
        ensures { IfOk result (λ c. c ≡ self.now) }
    {
        match self {
            Key::Name(path, name) => Ok(Key::Name(path.copy()?, name.copy()?)),
            Key::Global(name) => Ok(Key::Global(name.copy()?)),
            Key::Cells(path, name) => Ok(Key::Cells(path.copy()?, name.copy()?)),
            Key::Params(path) => Ok(Key::Params(path.copy()?)),
            Key::Exists(path) => Ok(Key::Exists(path.copy()?)),
            Key::Input(node) => Ok(Key::Input(node.copy()?)),
            Key::Table(name) => Ok(Key::Table(name.copy()?)),
        }
    }
}

impl KeyResult {
    /// An equal result, which shares all that it holds.
    pub fn copy(&self) -> Result<KeyResult, AllocError>
        ensures { IfOk result (λ c. c ≡ self.now) }
    {
        match self {
            KeyResult::Missing => Ok(KeyResult::Missing),
            KeyResult::CellsHere => Ok(KeyResult::CellsHere),
            KeyResult::Child => Ok(KeyResult::Child),
            KeyResult::Ref { value, owner } => Ok(KeyResult::Ref {
                value: value.copy()?,
                owner: owner.copy()?,
            }),
            KeyResult::Formula {
                formula,
                allow_none,
            } => Ok(KeyResult::Formula {
                formula: copy_formula(formula)?,
                allow_none: *allow_none,
            }),
            KeyResult::Params(params) => Ok(KeyResult::Params(copy_params(params)?)),
            KeyResult::There => Ok(KeyResult::There),
            KeyResult::Value(value) => Ok(KeyResult::Value(value.copy()?)),
            KeyResult::Table(table) => Ok(KeyResult::Table(table.copy()?)),
        }
    }
}
