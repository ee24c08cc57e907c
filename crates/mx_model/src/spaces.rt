//! The defined spaces of a text, with how many members they have in all.
ghost use Rattle.std.specs.Prelude.{◌≡◌, ◌<◌, ◌≤◌, ◌+◌, ◌++◌, ◌∷◌, [], length, slice_get, slice_set, option_copied, IfOk, OnOk, OnErr};
ghost use Rattle.mx_model.specs.Counts.{cell_total, reference_total};

use crate::space::Space;
use mx_list::shared::Shared;
use mx_members::chunks::Chunks;
use std::alloc::{AllocError, Global};
use std::marker::Model;

/// Spaces in order of creation, whose copies share them. How many cells and references they have in all is kept beside
/// them, so that no edit counts them anew.
#[derive(Drop)]
pub struct Spaces {
    all: Chunks<Shared<Space>>,
    cells: usize,
    references: usize,
}

impl Model for Spaces {
    ghost use Rattle.std.specs.Prelude.{◌≡◌, List};
    ghost use Rattle.std.specs.Coded.{codes};
    ghost use Rattle.mx_value.specs.contracts.value.Value as value;
    ghost use Rattle.mx_syntax.specs.contracts.expr.Expr as expr;
    ghost use Rattle.mx_syntax.specs.contracts.stmt.Stmt as stmt;
    ghost use Rattle.mx_edit.specs.contracts.reference.RefValue as ref_value;
    ghost use Rattle.mx_model.specs.Records.{SpaceRecord};
    ghost use Rattle.mx_model.specs.Counts.{cell_total, reference_total};

    ghost Value = { List SpaceRecord };

    ghost coded = { Prim.hlevel (codes, value.the_row.coded, expr.the_row.coded, stmt.the_row.coded, ref_value.the_row.coded) };

    ghost view = { λ s. s.all };

    ghost invariant = { λ s. (s.cells ≡ cell_total s.all) × (s.references ≡ reference_total s.all) };
}

impl Spaces {
    /// No spaces.
    pub fn new(alloc: Global) -> Spaces
        ensures { result ≡ [] }
    {
        Spaces {
            all: Chunks::new(alloc),
            cells: 0,
            references: 0,
        }
    }

    /// How many spaces there are.
    pub fn len(&self) -> usize
        ensures { result ≡ length self.now }
    {
        self.all.len()
    }

    /// How many cells all spaces have together.
    pub fn cell_count(&self) -> usize
        ensures { result ≡ cell_total self.now }
    {
        self.cells
    }

    /// How many references all spaces have together, those of the model apart.
    pub fn reference_count(&self) -> usize
        ensures { result ≡ reference_total self.now }
    {
        self.references
    }

    /// The space at a place, from 0.
    pub fn get(&self, at: usize) -> Option<&Shared<Space>>
        ensures { option_copied result ≡ slice_get self.now at }
    {
        self.all.get(at)
    }

    /// The same spaces.
    pub fn copy(&self, alloc: Global) -> Result<Spaces, AllocError>
        ensures { IfOk result (λ s. s ≡ self.now) }
    {
        Ok(Spaces {
            all: self.all.copy(alloc)?,
            cells: self.cells,
            references: self.references,
        })
    }

    /// Puts another space at a place.
    pub fn set(&mut self, alloc: Global, at: usize, space: Shared<Space>) -> Result<(), AllocError>
        requires { at < length self.old }
        ensures ok { OnOk result (self.new ≡ slice_set self.old at space) }
        ensures err { OnErr result (self.new ≡ self.old) }
    {
        let Some(old) = self.all.get(at) else {
            unreachable!()
        };
        let cells = replaced(self.cells, cells_of(old), cells_of(&space))?;
        let references = replaced(self.references, references_of(old), references_of(&space))?;
        self.all.set(alloc, at, space)?;
        self.cells = cells;
        self.references = references;
        Ok(())
    }

    /// The spaces with another one at a place.
    pub fn with(&self, alloc: Global, at: usize, space: Space) -> Result<Spaces, AllocError>
        requires { at < length self.now }
        ensures { IfOk result (λ s. s ≡ slice_set self.now at space) }
    {
        let space = Shared::new(alloc, space)?;
        let mut spaces = self.copy(alloc)?;
        spaces.set(alloc, at, space)?;
        Ok(spaces)
    }

    /// The spaces with one more behind them.
    pub fn with_more(&self, alloc: Global, space: Space) -> Result<Spaces, AllocError>
        ensures { IfOk result (λ s. s ≡ self.now ++ space ∷ []) }
    {
        let space = Shared::new(alloc, space)?;
        let mut spaces = self.copy(alloc)?;
        spaces.push(alloc, space)?;
        Ok(spaces)
    }

    /// Adds a space behind the others.
    pub fn push(&mut self, alloc: Global, space: Shared<Space>) -> Result<(), AllocError>
        ensures ok { OnOk result (self.new ≡ self.old ++ space ∷ []) }
        ensures err { OnErr result (self.new ≡ self.old) }
    {
        let cells = replaced(self.cells, 0, cells_of(&space))?;
        let references = replaced(self.references, 0, references_of(&space))?;
        self.all.push(alloc, space)?;
        self.cells = cells;
        self.references = references;
        Ok(())
    }
}

/// How many cells a space has.
fn cells_of(space: &Shared<Space>) -> usize
    ensures { result ≡ length space.now.cells }
{
    space.get().cells.get().count()
}

/// How many references a space has.
fn references_of(space: &Shared<Space>) -> usize
    ensures { result ≡ length space.now.references }
{
    space.get().references.get().count()
}

/// A sum with another part in the place of one. Without room for it, it is as if there were no memory.
fn replaced(all: usize, old: usize, new: usize) -> Result<usize, AllocError>
    requires { old ≤ all }
    ensures { IfOk result (λ sum. sum + old ≡ all + new) }
{
    match (all - old).checked_add(new) {
        Some(sum) => Ok(sum),
        None => Err(AllocError),
    }
}
