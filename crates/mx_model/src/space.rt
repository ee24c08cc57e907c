//! A defined space of a text.
ghost use Rattle.std.specs.Prelude.{◌≡◌, IfOk, option_copied};
ghost use Rattle.mx_model.specs.Records.{empty_space};
ghost use Rattle.std.specs.Map.{lookup};
ghost use Rattle.mx_value.specs.Name.{same_name};
ghost use Rattle.mx_model.specs.Readers.{cells_of, name_at, or_false};

use crate::held::no_members;
use mx_code::compiled::{Compiled, CompiledParams};
use mx_edit::reference::RefValue;
use mx_list::hashed::Hashed;
use mx_list::list::List;
use mx_list::shared::Shared;
use mx_members::members::Members;
use mx_value::label::Label;
use mx_value::node::Path;
use std::alloc::{AllocError, Global};
use std::marker::Model;

/// Cells: their formula, and whether it may give None.
#[derive(Drop)]
pub struct Cells {
    pub formula: Compiled,
    pub allow_none: bool,
}

impl Model for Cells {
    ghost use Rattle.std.specs.Coded.{codes};
    ghost use Rattle.mx_value.specs.contracts.value.Value as value;
    ghost use Rattle.mx_syntax.specs.contracts.expr.Expr as expr;
    ghost use Rattle.mx_syntax.specs.contracts.stmt.Stmt as stmt;
    ghost use Rattle.mx_model.specs.Records.{CellsRecord};

    ghost Value = { CellsRecord };

    ghost coded = { Prim.hlevel (codes, value.the_row.coded, expr.the_row.coded, stmt.the_row.coded) };

    ghost view = { λ c. record { formula = c.formula; allow_none = c.allow_none } };
}

/// A defined space: its path, its bases, its parameters, and its own cells and references.
#[derive(Drop)]
pub struct Space {
    pub path: Path,
    pub bases: List<Path>,
    pub params: Option<CompiledParams>,
    pub cells: Shared<Members<Label, Cells>>,
    pub references: Shared<Members<Label, RefValue>>,
}

impl Model for Space {
    ghost use Rattle.std.specs.Coded.{codes};
    ghost use Rattle.mx_value.specs.contracts.value.Value as value;
    ghost use Rattle.mx_syntax.specs.contracts.expr.Expr as expr;
    ghost use Rattle.mx_syntax.specs.contracts.stmt.Stmt as stmt;
    ghost use Rattle.mx_edit.specs.contracts.reference.RefValue as ref_value;
    ghost use Rattle.mx_model.specs.Records.{SpaceRecord};

    ghost Value = { SpaceRecord };

    ghost coded = { Prim.hlevel (codes, value.the_row.coded, expr.the_row.coded, stmt.the_row.coded, ref_value.the_row.coded) };

    ghost view = { λ s. record { path = s.path; bases = s.bases; params = s.params; cells = s.cells; references = s.references } };
}

impl Space {
    /// A space without members.
    pub fn new(alloc: Global, path: Path, bases: List<Path>) -> Result<Space, AllocError>
        ensures { IfOk result (λ s. s ≡ record (empty_space path) { bases = bases }) }
    {
        let cells = no_members(alloc)?;
        let references = no_members(alloc)?;
        Ok(Space {
            path,
            bases,
            params: None,
            cells,
            references,
        })
    }

    pub fn path(&self) -> &Path
        ensures { result.now ≡ self.now.path }
    {
        &self.path
    }

    /// The cells of a name.
    pub fn cells(&self, name: &Label) -> Option<&Cells>
        ensures { option_copied result ≡ cells_of self.now name.now }
    {
        self.cells_by(&Hashed::new(name))
    }

    /// The cells of a name whose hash is known.
    pub fn cells_by(&self, name: &Hashed<&Label>) -> Option<&Cells>
        ensures { option_copied result ≡ cells_of self.now name.now.now }
    {
        self.cells.get().get_by(name)
    }

    /// Whether the cells of a name may give None. False where there are none.
    pub fn allows_none(&self, name: &Label) -> bool
        ensures { result ≡ or_false (cells_of self.now name.now) }
    {
        match self.cells(name) {
            Some(cells) => cells.allow_none,
            None => false,
        }
    }

    /// The reference of a name.
    pub fn reference(&self, name: &Label) -> Option<&RefValue>
        ensures { option_copied result ≡ lookup (same_name name.now) self.now.references }
    {
        self.reference_by(&Hashed::new(name))
    }

    /// The reference of a name whose hash is known.
    pub fn reference_by(&self, name: &Hashed<&Label>) -> Option<&RefValue>
        ensures { option_copied result ≡ lookup (same_name name.now.now) self.now.references }
    {
        self.references.get().get_by(name)
    }

    pub fn params(&self) -> Option<&CompiledParams>
        ensures { option_copied result ≡ self.now.params }
    {
        self.params.as_ref()
    }

    /// The name of the cells at a place, from 0.
    pub fn cells_at(&self, place: u32) -> Option<&Label>
        ensures { option_copied result ≡ name_at self.now.cells place }
    {
        self.cells.get().key_at(place as usize)
    }

    /// The name of the reference at a place, from 0.
    pub fn reference_at(&self, place: u32) -> Option<&Label>
        ensures { option_copied result ≡ name_at self.now.references place }
    {
        self.references.get().key_at(place as usize)
    }
}
