//! A valid model text with the table of its static paths.
ghost use Rattle.std.specs.Prelude.{◌≡◌, ◌<◌, length, option_copied, Option, Some, IfOk, IsTrue, MatchOption};
ghost use Rattle.mx_c3.specs.InOrder.{AllBelow};
ghost use Rattle.mx_edit.specs.declared.key.Key.TheVariants as key;
ghost use Rattle.mx_model.specs.declared.kind.Kind.TheVariants as kind;
ghost use Rattle.mx_model.specs.declared.layers.Layered.TheVariants.{Layers, NotStatic};
ghost use Rattle.mx_model.specs.Records.{beginning};
ghost use Rattle.mx_model.specs.Layers.{layers, is_static};
ghost use Rattle.mx_model.specs.Binding.{own_member, first_with};
ghost use Rattle.mx_model.specs.Lookup.{kind_in, member_in};
ghost use Rattle.mx_model.specs.Keys.{bound_to, formula_of, params_of, global_of, value_of, table_of, key_result};
ghost use Rattle.mx_model.specs.Valid.{Valid};
ghost use Rattle.mx_paths.specs.Names.{IsNamed};
ghost use Rattle.mx_paths.specs.Table.{IsTableOf, path_at};
ghost use Rattle.mx_model.specs.Literals.{HasLiterals};
ghost use Rattle.mx_world.specs.World.{IsWorld};
ghost use Rattle.mx_world.specs.Bound.{told_name, told_cells, TellsReference};
ghost use Rattle.mx_edit.specs.declared.key.KeyResult.TheVariants as found;

use crate::bound::{Bound, BoundCells, BoundReference};
use mx_c3::lists::Order;
use mx_c3::space::SpaceId;
use mx_code::compiled::CompiledParams;
use mx_edit::reference::RefValue;
use mx_edit::table::Table;
use mx_list::hashed::Hashed;
use mx_list::shared::Shared;
use mx_model::lookup::{Binding, first_params, lookup_by};
use mx_model::text::ModelText;
use mx_paths::id::PathId;
use mx_paths::refusal::PathsRefusal;
use mx_paths::table::Paths;
use mx_value::equality::equality_laws;
use mx_value::label::Label;
use mx_value::node::{Node, Path};
use mx_value::value::Value;
use std::alloc::{AllocError, Global};
use std::cell::Cell;
use std::marker::Model;

/// A valid text and the table of its static paths. Contracts see the text.
#[derive(Drop)]
pub struct World {
    text: ModelText,
    paths: Shared<Paths>,
    // The number of the path that was found last. Most look-ups are for that one again.
    last: Cell<u32>,
}

impl Model for World {
    ghost use Rattle.mx_model.specs.Records.{ModelRecord};
    ghost use Rattle.std.specs.Coded.{codes};
    ghost use Rattle.mx_value.specs.contracts.value.Value as value;
    ghost use Rattle.mx_value.specs.contracts.node.Node as node;
    ghost use Rattle.mx_syntax.specs.contracts.expr.Expr as expr;
    ghost use Rattle.mx_syntax.specs.contracts.stmt.Stmt as stmt;
    ghost use Rattle.mx_edit.specs.contracts.reference.RefValue as ref_value;
    ghost use Rattle.mx_world.specs.World.{IsWorld};

    ghost Value = { ModelRecord };

    ghost coded = { Prim.hlevel (codes, value.the_row.coded, node.the_row.coded, expr.the_row.coded, stmt.the_row.coded, ref_value.the_row.coded) };

    ghost view = { λ w. w.text };

    ghost invariant = { λ w. IsWorld w.text w.paths };
}

impl World {
    /// The world of a new model, which has the one empty space Main.
    pub fn new(alloc: Global) -> Result<World, AllocError>
        ensures { IfOk result (λ w. w ≡ beginning) }
    {
        let text = ModelText::new(alloc)?;
        match Paths::build(alloc, &text) {
            Ok(paths) => {
                let shared = Shared::new(alloc, paths)?;
                return Ok(World::of(text, shared));
            }
            Err(PathsRefusal::NoMemory) => Err(AllocError),
            Err(PathsRefusal::NoOrder(_)) => unreachable!(),
            Err(PathsRefusal::TooMany(_)) => unreachable!(),
        }
    }

    /// The world of a valid text and its table.
    pub fn of(text: ModelText, paths: Shared<Paths>) -> World
        requires { IsWorld text paths }
        ensures { result ≡ text }
    {
        World {
            text,
            paths,
            last: Cell::new(0),
        }
    }

    /// The text.
    pub fn text(&self) -> &ModelText
        ensures exact { result.now ≡ self.now }
        ensures valid { Valid self.now }
        ensures named { IsNamed self.now }
        ensures literals { HasLiterals self.now }
    {
        &self.text
    }

    /// The table of the static paths of the text.
    pub fn paths(&self) -> &Paths
        ensures { IsTableOf self.now result.now }
    {
        self.paths.get()
    }

    /// The same table, to be shared with a text that has the same spaces and bases.
    pub fn shared_paths(&self) -> Result<Shared<Paths>, AllocError>
        ensures { IfOk result (IsTableOf self.now) }
    {
        self.paths.copy()
    }

    /// Whether a path is a static one.
    pub fn exists(&self, path: &Path) -> bool
        ensures { result ≡ is_static self.now path.now }
    {
        return self.layers_of(path).is_some();
    }

    /// The layers of a static path.
    fn layers_of(&self, path: &Path) -> Option<&Order>
        ensures { MatchOption result (layers self.now path.now ≡ NotStatic)
            (λ spaces. layers self.now path.now ≡ Layers spaces.now) }
    {
        let paths = self.paths();
        let last = PathId(self.last.get());
        if is_of(paths, last, path) {
            return Some(paths.layers(last));
        }
        match paths.find(path) {
            Some(id) => {
                self.last.set(id.0);
                return Some(paths.layers(id));
            }
            None => return None,
        }
    }

    /// The parameters of a path.
    pub fn params(&self, path: &Path) -> Option<&CompiledParams>
        ensures { params_of (option_copied result) ≡ key_result self.now (key.Params path.now) }
    {
        match self.layers_of(path) {
            Some(layers) => return first_params(&self.text, layers),
            None => return None,
        }
    }

    /// A reference of the model.
    pub fn global(&self, name: &Label) -> Option<&RefValue>
        ensures { global_of (option_copied result) ≡ key_result self.now (key.Global name.now) }
    {
        self.text.global(name)
    }

    /// The value that was put in for a node.
    pub fn input(&self, node: &Node) -> Option<&Value>
        ensures { value_of (option_copied result) ≡ key_result self.now (key.Input node.now) }
    {
        self.text.input(node)
    }

    /// A table.
    pub fn table(&self, name: &Label) -> Option<&Table>
        ensures { table_of (option_copied result) ≡ key_result self.now (key.Table name.now) }
    {
        self.text.table(name)
    }

    /// What a path binds a name to.
    pub fn name(&self, path: &Path, name: &Label) -> Bound<'_>
        ensures { told_name result ≡ key_result self.now (key.Name path.now name.now) }
    {
        match self.layers_of(path) {
            Some(layers) => return name_in(&self.text, layers, &Hashed::new(name)),
            None => return Bound::Missing,
        }
    }

    /// The cells that a path binds to a name.
    pub fn compiled(&self, path: &Path, name: &Label) -> Option<BoundCells<'_>>
        ensures { told_cells result ≡ key_result self.now (key.Cells path.now name.now) }
    {
        match self.layers_of(path) {
            Some(layers) => return cells_in(&self.text, layers, &Hashed::new(name)),
            None => return None,
        }
    }

    /// The reference that a path binds to a name, with the path of the space that defines it.
    pub fn reference(&self, path: &Path, name: &Label) -> Option<BoundReference<'_>>
        ensures { TellsReference (key_result self.now (key.Name path.now name.now)) result }
    {
        match self.name(path, name) {
            Bound::Ref(reference) => return Some(reference),
            Bound::CellsHere => return None,
            Bound::Child => return None,
            Bound::Missing => return None,
        }
    }
}

/// Whether a number is that of a path.
fn is_of(paths: &Paths, id: PathId, path: &Path) -> bool
    ensures within { IsTrue result → id.0 < length paths.now }
    ensures path { IsTrue result → path_at paths.now id ≡ Some path.now }
{
    equality_laws();
    if paths.count() <= id.0 as usize {
        return false;
    }
    *paths.path_of(id) == *path
}

/// What layers bind a name to.
fn name_in<'a>(text: &'a ModelText, layers: &Order, name: &Hashed<&Label>) -> Bound<'a>
    requires { AllBelow (length text.now.spaces) layers.now }
    ensures { told_name result
        ≡ bound_to (first_with text.now (own_member text.now name.now.now) layers.now) }
{
    match lookup_by(text, layers, name) {
        Binding::CellsHere { owner: _ } => return Bound::CellsHere,
        Binding::Child => return Bound::Child,
        Binding::Ref { owner } => return Bound::Ref(reference_of(text, owner, name)),
        Binding::Missing => return Bound::Missing,
    }
}

/// The reference of a space.
fn reference_of<'a>(
    text: &'a ModelText,
    owner: SpaceId,
    name: &Hashed<&Label>,
) -> BoundReference<'a>
    requires within { owner.0 < length text.now.spaces }
    requires of_kind { kind_in text.now owner name.now.now ≡ Some kind.Reference }
    ensures { found.Ref result.value.now result.owner.now
        ≡ bound_to (member_in text.now owner name.now.now) }
{
    let Some(value) = text.reference_by(owner, name) else {
        unreachable!()
    };
    BoundReference {
        value,
        owner: text.path_of(owner),
    }
}

/// The cells that layers bind to a name.
fn cells_in<'a>(
    text: &'a ModelText,
    layers: &Order,
    name: &Hashed<&Label>,
) -> Option<BoundCells<'a>>
    requires { AllBelow (length text.now.spaces) layers.now }
    ensures { told_cells result
        ≡ formula_of (first_with text.now (own_member text.now name.now.now) layers.now) }
{
    match lookup_by(text, layers, name) {
        Binding::CellsHere { owner } => return Some(cells_of(text, owner, name)),
        Binding::Child => return None,
        Binding::Ref { owner: _ } => return None,
        Binding::Missing => return None,
    }
}

/// The cells of a space.
fn cells_of<'a>(text: &'a ModelText, owner: SpaceId, name: &Hashed<&Label>) -> BoundCells<'a>
    requires within { owner.0 < length text.now.spaces }
    requires of_kind { kind_in text.now owner name.now.now ≡ Some kind.Cells }
    ensures { found.Formula result.formula.now result.allow_none
        ≡ formula_of (member_in text.now owner name.now.now) }
{
    let Some(cells) = text.cells_by(owner, name) else {
        unreachable!()
    };
    BoundCells {
        formula: &cells.formula,
        allow_none: cells.allow_none,
    }
}
