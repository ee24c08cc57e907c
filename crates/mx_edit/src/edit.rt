//! Edits: the changes of a model text.
use crate::reference::RefValue;
use crate::table::Table;
use mx_list::items::Items;
use mx_list::list::List;
use mx_syntax::stmt::{Formula, Params};
use mx_value::label::Label;
use mx_value::node::Path;
use mx_value::value::{Addr, Value};

/// A change of the model text. It is made whole or refused.
#[derive(Drop)]
pub enum Edit {
    /// A new space below another one, or at the top, where `parent` is the empty path.
    NewSpace {
        parent: Path,
        name: Label,
    },
    /// Removes a space and all defined spaces below it.
    DelSpace {
        path: Path,
    },
    /// The bases of a space, in order, in place of those that it has.
    SetBases {
        path: Path,
        bases: List<Path>,
    },
    /// Defines cells, or puts another formula into their place. New cells do not allow None; cells that are there
    /// keep their setting.
    SetCells {
        path: Path,
        name: Label,
        formula: Formula,
    },
    /// Removes cells.
    DelCells {
        path: Path,
        name: Label,
    },
    /// Whether the formula of cells may give None.
    SetAllowNone {
        path: Path,
        name: Label,
        flag: bool,
    },
    /// Defines a reference, or puts another value into its place. The empty path is the model.
    SetRef {
        path: Path,
        name: Label,
        value: RefValue,
    },
    /// Removes a reference. The empty path is the model.
    DelRef {
        path: Path,
        name: Label,
    },
    /// The parameters of a space, in place of those that it has, or none.
    SetParams {
        path: Path,
        params: Option<Params>,
    },
    /// A value in place of the run of the cells of a static space at these arguments.
    SetInput {
        space: Addr,
        name: Label,
        args: Items<Value>,
        value: Value,
    },
    /// Takes an input out.
    DelInput {
        space: Addr,
        name: Label,
        args: Items<Value>,
    },
    /// A table, in place of the one of that name where there is one.
    SetTable {
        name: Label,
        table: Table,
    },
}
