//! The model text.
ghost use Rattle.std.specs.Prelude.{◌≡◌, ◌<◌, ◌∷◌, [], codes, Some, length, slice_get, option_copied, option_map, IfOk};
ghost use Rattle.std.specs.Map.{lookup};
ghost use Rattle.mx_value.specs.Name.{same_name};
ghost use Rattle.mx_model.specs.Records.{beginning, empty_space, empty_text};
ghost use Rattle.mx_model.specs.Layers.{id_of, space_of, paths_of, base_lists};
ghost use Rattle.mx_model.specs.Keys.{input_of};
ghost use Rattle.mx_model.specs.Lookup.{kind_in};
ghost use Rattle.mx_model.specs.Indexed.{TellsAt, ArePlaced};
ghost use Rattle.mx_model.specs.Readers.{path_in, cells_in, formula_in, allows_in, reference_in, params_in, name_at, cells_at, reference_at};

use crate::beside::{Index, copy_index, empty_index, first_index};
use crate::held::{copy_held, no_members, nothing_held};
use crate::kind::Kind;
use crate::space::{Cells, Space};
use crate::spaces::Spaces;
use mx_c3::lists::{BaseLists, Order};
use mx_c3::space::SpaceId;
use mx_code::compiled::CompiledParams;
use mx_edit::reference::RefValue;
use mx_edit::table::Table;
use mx_list::hashed::Hashed;
use mx_list::list::List;
use mx_list::shared::Shared;
use mx_members::chunks::Chunks;
use mx_members::keys::Keys;
use mx_members::members::Members;
use mx_syntax::stmt::{Formula, Params};
use mx_value::label::Label;
use mx_value::node::{Node, Path};
use mx_value::value::Value;
use std::alloc::{AllocError, Global};
use std::marker::Model;

/// What a model is made of. Copies share what they are made of. Contracts see its `ModelRecord`.
#[derive(Drop)]
pub struct ModelText {
    /// The paths of the spaces, in order of creation.
    pub(crate) paths: Shared<Keys<Path>>,
    pub(crate) spaces: Spaces,
    /// What each space has itself of each name, by its place.
    pub(crate) kinds: Chunks<Shared<Members<Label, Kind>>>,
    /// The bases of each space by its place.
    pub(crate) lists: Shared<BaseLists>,
    pub(crate) globals: Shared<Members<Label, RefValue>>,
    pub(crate) inputs: Shared<Members<Node, Shared<Value>>>,
    pub(crate) tables: Shared<Members<Label, Table>>,
}

impl Model for ModelText {
    ghost use Rattle.std.specs.Coded.{codes};
    ghost use Rattle.mx_value.specs.contracts.value.Value as value;
    ghost use Rattle.mx_value.specs.contracts.node.Node as node;
    ghost use Rattle.mx_syntax.specs.contracts.expr.Expr as expr;
    ghost use Rattle.mx_syntax.specs.contracts.stmt.Stmt as stmt;
    ghost use Rattle.mx_edit.specs.contracts.reference.RefValue as ref_value;
    ghost use Rattle.mx_model.specs.Records.{ModelRecord};
    ghost use Rattle.mx_model.specs.Indexed.{IsIndexed};

    ghost Value = { ModelRecord };

    ghost coded = { Prim.hlevel (codes, value.the_row.coded, node.the_row.coded, expr.the_row.coded, stmt.the_row.coded, ref_value.the_row.coded) };

    ghost view = { λ t. record { spaces = t.spaces; globals = t.globals; inputs = t.inputs; tables = t.tables } };

    ghost invariant = { λ t. IsIndexed t.paths t.lists t.kinds (record { spaces = t.spaces; globals = t.globals; inputs = t.inputs; tables = t.tables }) };
}

impl ModelText {
    /// The text of a new model, which has the one empty space Main.
    pub fn new(alloc: Global) -> Result<ModelText, AllocError>
        ensures { IfOk result (λ t. t ≡ beginning) }
    {
        let path = main_path(alloc)?;
        let index = first_index(alloc, path.copy()?)?;
        let held = nothing_held(alloc)?;
        let kinds = one_table(alloc)?;
        let spaces = one_space(alloc, path)?;
        Ok(ModelText {
            paths: index.paths,
            spaces,
            kinds,
            lists: index.lists,
            globals: held.globals,
            inputs: held.inputs,
            tables: held.tables,
        })
    }

    /// The text in which nothing stands, not even a space.
    pub fn empty(alloc: Global) -> Result<ModelText, AllocError>
        ensures { IfOk result (λ t. t ≡ empty_text) }
    {
        let index = empty_index(alloc)?;
        let held = nothing_held(alloc)?;
        let spaces = Spaces::new(alloc);
        let kinds = Chunks::new(alloc);
        Ok(ModelText {
            paths: index.paths,
            spaces,
            kinds,
            lists: index.lists,
            globals: held.globals,
            inputs: held.inputs,
            tables: held.tables,
        })
    }

    /// The number of defined spaces.
    pub fn space_count(&self) -> u32
        ensures { result ≡ length self.now.spaces }
    {
        self.spaces.len() as u32
    }

    /// The place of the defined space at a path, in order of creation, from 0.
    pub fn id_of(&self, path: &Path) -> Option<SpaceId>
        ensures { result ≡ id_of self.now path.now }
    {
        match self.paths.get().place_of(path) {
            Some(place) => Some(SpaceId(place as u32)),
            None => None,
        }
    }

    /// A defined space.
    pub fn space(&self, s: SpaceId) -> &Space
        requires { s.0 < length self.now.spaces }
        ensures { space_of self.now s ≡ Some result.now }
    {
        let Some(space) = self.spaces.get(s.0 as usize) else {
            unreachable!()
        };
        space.get()
    }

    /// The path of a defined space.
    pub fn path_of(&self, s: SpaceId) -> &Path
        requires { s.0 < length self.now.spaces }
        ensures { path_in self.now s ≡ Some result.now }
    {
        self.space(s).path()
    }

    /// The bases of a defined space.
    pub fn bases_of(&self, s: SpaceId) -> &Order
        requires { s.0 < length self.now.spaces }
        ensures { slice_get (base_lists self.now) s.0 ≡ Some result.now }
    {
        self.lists.get().bases(s)
    }

    /// The bases of all spaces, by place.
    pub fn base_lists(&self) -> &BaseLists
        ensures { result.now ≡ base_lists self.now }
    {
        self.lists.get()
    }

    /// The formula of a space's own cells.
    pub fn formula(&self, s: SpaceId, name: &Label) -> Option<&Formula>
        requires { s.0 < length self.now.spaces }
        ensures { option_copied result ≡ formula_in self.now s name.now }
    {
        match self.space(s).cells(name) {
            Some(cells) => Some(cells.formula.formula()),
            None => None,
        }
    }

    /// A space's own cells, with their formula's code and setting.
    pub fn cells(&self, s: SpaceId, name: &Label) -> Option<&Cells>
        requires { s.0 < length self.now.spaces }
        ensures { option_copied result ≡ cells_in self.now s name.now }
    {
        self.space(s).cells(name)
    }

    /// The same for a name whose hash is known.
    pub fn cells_by(&self, s: SpaceId, name: &Hashed<&Label>) -> Option<&Cells>
        requires { s.0 < length self.now.spaces }
        ensures { option_copied result ≡ cells_in self.now s name.now.now }
    {
        self.space(s).cells_by(name)
    }

    /// Whether the formula of a space's own cells may give None. False where there are no such cells.
    pub fn allows_none(&self, s: SpaceId, name: &Label) -> bool
        requires { s.0 < length self.now.spaces }
        ensures { result ≡ allows_in self.now s name.now }
    {
        self.space(s).allows_none(name)
    }

    /// The own parameters of a space.
    pub fn params(&self, s: SpaceId) -> Option<&Params>
        requires { s.0 < length self.now.spaces }
        ensures { option_copied result ≡ params_in self.now s }
    {
        match self.space(s).params() {
            Some(params) => Some(params.params()),
            None => None,
        }
    }

    /// The same with the code of the formula of the items.
    pub fn compiled_params(&self, s: SpaceId) -> Option<&CompiledParams>
        requires { s.0 < length self.now.spaces }
        ensures { option_copied result ≡ params_in self.now s }
    {
        self.space(s).params()
    }

    /// What a space has itself under a name whose hash is known.
    pub fn kind_by(&self, s: SpaceId, name: &Hashed<&Label>) -> Option<Kind>
        requires { s.0 < length self.now.spaces }
        ensures { result ≡ kind_in self.now s name.now.now }
    {
        let Some(kinds) = self.kinds.get(s.0 as usize) else {
            unreachable!()
        };
        kinds.get().get_by(name).copied()
    }

    /// An own reference of a space.
    pub fn reference(&self, s: SpaceId, name: &Label) -> Option<&RefValue>
        requires { s.0 < length self.now.spaces }
        ensures { option_copied result ≡ reference_in self.now s name.now }
    {
        self.space(s).reference(name)
    }

    /// The same for a name whose hash is known.
    pub fn reference_by(&self, s: SpaceId, name: &Hashed<&Label>) -> Option<&RefValue>
        requires { s.0 < length self.now.spaces }
        ensures { option_copied result ≡ reference_in self.now s name.now.now }
    {
        self.space(s).reference_by(name)
    }

    /// A reference of the model.
    pub fn global(&self, name: &Label) -> Option<&RefValue>
        ensures { option_copied result ≡ lookup (same_name name.now) self.now.globals }
    {
        self.globals.get().get(name)
    }

    /// The value that was put in for a node.
    pub fn input(&self, node: &Node) -> Option<&Value>
        ensures { option_copied result ≡ input_of self.now node.now }
    {
        match self.inputs.get().get(node) {
            Some(value) => Some(value.get()),
            None => None,
        }
    }

    /// The same, to be shared.
    pub fn shared_input(&self, node: &Node) -> Option<&Shared<Value>>
        ensures { option_copied result ≡ input_of self.now node.now }
    {
        self.inputs.get().get(node)
    }

    pub fn table(&self, name: &Label) -> Option<&Table>
        ensures { option_copied result ≡ lookup (same_name name.now) self.now.tables }
    {
        self.tables.get().get(name)
    }

    /// The name of a space's own cells by place, from 0.
    pub fn cells_at(&self, s: SpaceId, place: u32) -> Option<&Label>
        requires { s.0 < length self.now.spaces }
        ensures { option_copied result ≡ cells_at self.now s place }
    {
        self.space(s).cells_at(place)
    }

    /// The name of a space's own reference by place, from 0.
    pub fn reference_at(&self, s: SpaceId, place: u32) -> Option<&Label>
        requires { s.0 < length self.now.spaces }
        ensures { option_copied result ≡ reference_at self.now s place }
    {
        self.space(s).reference_at(place)
    }

    /// The name of a reference of the model by place, from 0.
    pub fn global_at(&self, place: u32) -> Option<&Label>
        ensures { option_copied result ≡ name_at self.now.globals place }
    {
        self.globals.get().key_at(place as usize)
    }

    /// The name of a table by place, from 0.
    pub fn table_at(&self, place: u32) -> Option<&Label>
        ensures { option_copied result ≡ name_at self.now.tables place }
    {
        self.tables.get().key_at(place as usize)
    }

    /// The node of an input by place, from 0.
    pub fn input_at(&self, place: u32) -> Option<&Node>
        ensures { option_copied result ≡ option_map (λ i. i.0) (slice_get self.now.inputs place) }
    {
        self.inputs.get().key_at(place as usize)
    }

    /// The defined spaces, in order of creation.
    pub fn spaces(&self) -> &Spaces
        ensures { result.now ≡ self.now.spaces }
    {
        &self.spaces
    }

    /// What each space has itself of each name, by its place.
    pub fn kinds(&self) -> &Chunks<Shared<Members<Label, Kind>>>
        ensures { ArePlaced result.now self.now }
    {
        &self.kinds
    }

    /// The references of the model.
    pub fn globals(&self) -> &Members<Label, RefValue>
        ensures { result.now ≡ self.now.globals }
    {
        self.globals.get()
    }

    /// The inputs.
    pub fn inputs(&self) -> &Members<Node, Shared<Value>>
        ensures { result.now ≡ self.now.inputs }
    {
        self.inputs.get()
    }

    /// The tables.
    pub fn tables(&self) -> &Members<Label, Table>
        ensures { result.now ≡ self.now.tables }
    {
        self.tables.get()
    }

    /// What a space has itself of each name.
    pub fn kinds_at(&self, s: SpaceId) -> Result<Shared<Members<Label, Kind>>, AllocError>
        requires { s.0 < length self.now.spaces }
        ensures { IfOk result (λ kinds. TellsAt self.now s kinds) }
    {
        let Some(kinds) = self.kinds.get(s.0 as usize) else {
            unreachable!()
        };
        kinds.copy()
    }

    /// An equal text, which shares all that it holds.
    pub fn copy(&self, alloc: Global) -> Result<ModelText, AllocError>
        ensures { IfOk result (λ t. t ≡ self.now) }
    {
        let spaces = self.spaces.copy(alloc)?;
        let kinds = self.kinds.copy(alloc)?;
        self.with_spaces_in_place(spaces, kinds)
    }

    /// The text with spaces of the same paths and bases in the places of its own.
    pub(crate) fn with_spaces_in_place(
        &self,
        spaces: Spaces,
        kinds: Chunks<Shared<Members<Label, Kind>>>,
    ) -> Result<ModelText, AllocError>
        requires placed { ArePlaced kinds (record self.now { spaces = spaces }) }
        requires paths { paths_of (record self.now { spaces = spaces }) ≡ paths_of self.now }
        requires bases { base_lists (record self.now { spaces = spaces }) ≡ base_lists self.now }
        ensures { IfOk result (λ t. t ≡ record self.now { spaces = spaces }) }
    {
        let index = copy_index(&self.paths, &self.lists)?;
        self.with_index(index, spaces, kinds)
    }

    /// The text with these spaces, and what tells of them by their places.
    pub(crate) fn with_index(
        &self,
        index: Index,
        spaces: Spaces,
        kinds: Chunks<Shared<Members<Label, Kind>>>,
    ) -> Result<ModelText, AllocError>
        requires paths { index.paths ≡ paths_of (record self.now { spaces = spaces }) }
        requires lists { index.lists ≡ base_lists (record self.now { spaces = spaces }) }
        requires placed { ArePlaced kinds (record self.now { spaces = spaces }) }
        ensures { IfOk result (λ t. t ≡ record self.now { spaces = spaces }) }
    {
        let held = copy_held(&self.globals, &self.inputs, &self.tables)?;
        Ok(ModelText {
            paths: index.paths,
            spaces,
            kinds,
            lists: index.lists,
            globals: held.globals,
            inputs: held.inputs,
            tables: held.tables,
        })
    }
}

/// The path of the space Main.
fn main_path(alloc: Global) -> Result<Path, AllocError>
    ensures { IfOk result (λ path. path ≡ codes "Main" ∷ []) }
{
    let Ok(main) = Label::new(alloc, b"Main") else {
        return Err(AllocError);
    };
    let mut names = Vec::new(alloc);
    names.push(main)?;
    List::from_vec(alloc, names)
}

/// The empty space of a path alone.
fn one_space(alloc: Global, path: Path) -> Result<Spaces, AllocError>
    ensures { IfOk result (λ spaces. spaces ≡ empty_space path ∷ []) }
{
    let bases = List::empty(alloc)?;
    let space = Space::new(alloc, path, bases)?;
    let none = Spaces::new(alloc);
    none.with_more(alloc, space)
}

/// The kinds of one space without members.
fn one_table(alloc: Global) -> Result<Chunks<Shared<Members<Label, Kind>>>, AllocError>
    ensures { IfOk result (λ kinds. kinds ≡ [] ∷ []) }
{
    let table = no_members(alloc)?;
    let mut kinds = Chunks::new(alloc);
    kinds.push(alloc, table)?;
    Ok(kinds)
}
