//! Texts that differ from another in one kind of their parts, and share the others with it.
ghost use Rattle.std.specs.Prelude.{◌≡◌, ◌<◌, length, slice_set, Some, IfOk};
ghost use Rattle.mx_model.specs.Records.{Path as SpacePath, SpaceRecord};
ghost use Rattle.mx_model.specs.Layers.{id_of, space_of};
ghost use Rattle.mx_model.specs.Change.{at_space};
ghost use Rattle.mx_model.specs.Kept.{StaysInPlace};
ghost use Rattle.mx_model.specs.Indexed.{Tells, ArePlaced};

use crate::beside::{Kept, index_of};
use crate::kind::Kind;
use crate::space::Space;
use crate::spaces::Spaces;
use crate::text::ModelText;
use mx_c3::space::SpaceId;
use mx_edit::reference::RefValue;
use mx_edit::table::Table;
use mx_list::shared::Shared;
use mx_members::chunks::Chunks;
use mx_members::members::Members;
use mx_value::label::Label;
use mx_value::node::Node;
use mx_value::value::Value;
use std::alloc::{AllocError, Global};

impl ModelText {
    /// The text with another space of the same path and bases in the place of one.
    pub fn put(
        &self,
        alloc: Global,
        s: SpaceId,
        space: Space,
        kinds: Shared<Members<Label, Kind>>,
    ) -> Result<ModelText, AllocError>
        requires within { s.0 < length self.now.spaces }
        requires stays { (old : SpaceRecord) →
            space_of self.now s ≡ Some old → StaysInPlace old space }
        requires tells { Tells self.now space kinds }
        ensures { (path : SpacePath) (change : SpaceRecord → SpaceRecord) →
            id_of self.now path ≡ Some s →
            ((old : SpaceRecord) → space_of self.now s ≡ Some old → space ≡ change old) →
            IfOk result (λ t. t ≡ at_space self.now path change) }
    {
        let spaces = self.spaces.with(alloc, s.0 as usize, space)?;
        let kinds = tables_with(alloc, &self.kinds, s, kinds)?;
        self.with_spaces_in_place(spaces, kinds)
    }

    /// The text with these spaces, each with its table of kinds.
    pub fn with_spaces(
        &self,
        alloc: Global,
        spaces: Spaces,
        kinds: Chunks<Shared<Members<Label, Kind>>>,
    ) -> Result<ModelText, AllocError>
        requires { ArePlaced kinds (record self.now { spaces = spaces }) }
        ensures { IfOk result (λ t. t ≡ record self.now { spaces = spaces }) }
    {
        let kept = Kept {
            paths: self.paths.get(),
            spaces: &self.spaces,
            lists: self.lists.get(),
        };
        let index = index_of(alloc, &kept, &spaces)?;
        self.with_index(index, spaces, kinds)
    }

    /// The text with these references of the model.
    pub fn with_globals(
        &self,
        alloc: Global,
        globals: Members<Label, RefValue>,
    ) -> Result<ModelText, AllocError>
        ensures { IfOk result (λ t. t ≡ record self.now { globals = globals }) }
    {
        let globals = Shared::new(alloc, globals)?;
        let text = self.copy(alloc)?;
        Ok(ModelText { globals, ..text })
    }

    /// The text with these tables.
    pub fn with_tables(
        &self,
        alloc: Global,
        tables: Members<Label, Table>,
    ) -> Result<ModelText, AllocError>
        ensures { IfOk result (λ t. t ≡ record self.now { tables = tables }) }
    {
        let tables = Shared::new(alloc, tables)?;
        let text = self.copy(alloc)?;
        Ok(ModelText { tables, ..text })
    }

    /// The text with these inputs.
    pub fn with_inputs(
        &self,
        alloc: Global,
        inputs: Members<Node, Shared<Value>>,
    ) -> Result<ModelText, AllocError>
        ensures { IfOk result (λ t. t ≡ record self.now { inputs = inputs }) }
    {
        let inputs = Shared::new(alloc, inputs)?;
        let text = self.copy(alloc)?;
        Ok(ModelText { inputs, ..text })
    }
}

/// The tables of kinds with another one in the place of one.
fn tables_with(
    alloc: Global,
    all: &Chunks<Shared<Members<Label, Kind>>>,
    s: SpaceId,
    kinds: Shared<Members<Label, Kind>>,
) -> Result<Chunks<Shared<Members<Label, Kind>>>, AllocError>
    requires { s.0 < length all.now }
    ensures { IfOk result (λ tables. tables ≡ slice_set all.now s.0 kinds) }
{
    let mut tables = all.copy(alloc)?;
    tables.set(alloc, s.0 as usize, kinds)?;
    Ok(tables)
}
