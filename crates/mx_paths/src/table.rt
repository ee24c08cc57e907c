//! The table of static paths.
ghost use Rattle.std.specs.Prelude.{◌≡◌, ◌<◌, ◌≤◌, ◌++◌, ◌∷◌, [], length, Some, IfOk, OnOk, OnErr};
ghost use Rattle.mx_c3.specs.Lists.{Has};
ghost use Rattle.mx_model.specs.Records.{ModelRecord, Path as Names};
ghost use Rattle.mx_model.specs.Sound.{IsSound};
ghost use Rattle.mx_model.specs.Binding.{binding};
ghost use Rattle.mx_model.specs.Lookup.{IsBinding};
ghost use Rattle.mx_paths.specs.Table.{paths_in, id_in, path_at, layers_at, IsTableOf, IsFoundIn, IsLayered};

use crate::id::PathId;
use indexmap::IndexMap;
use mx_c3::lists::Order;
use mx_model::lookup::{Binding, lookup};
use mx_model::text::ModelText;
use mx_value::label::Label;
use mx_value::node::Path;
use std::alloc::{AllocError, Global};
use std::marker::Model;

/// Static paths by number, in the order of the walk: by the number of their names, and then by the bytes of their texts.
#[derive(Drop)]
pub struct Paths {
    rows: IndexMap<Path, Order>,
}

impl Model for Paths {
    ghost use Rattle.std.specs.Prelude.{List, ◌≤◌, length};
    ghost use Rattle.mx_paths.specs.Table.{Row};

    ghost Value = { List Row };

    ghost view = { λ p. p.rows.entries };

    ghost invariant = { λ p. length p.rows.entries ≤ 20000 };
}

impl Paths {
    /// No paths, with room for so many.
    pub(crate) fn with_room(alloc: Global, count: usize) -> Result<Paths, AllocError>
        ensures { IfOk result (λ paths. paths ≡ []) }
    {
        Ok(Paths {
            rows: IndexMap::with_capacity(alloc, count)?,
        })
    }

    /// Adds a path with its layers behind the others.
    pub(crate) fn push(&mut self, path: Path, layers: Order) -> Result<(), AllocError>
        requires new { Has (paths_in self.old) path → ⊥ }
        requires few { length self.old < 20000 }
        ensures ok { OnOk result (self.new ≡ self.old ++ (path, layers) ∷ []) }
        ensures err { OnErr result (self.new ≡ self.old) }
    {
        self.rows.insert(path, layers)?;
        Ok(())
    }

    /// How many paths there are.
    pub fn count(&self) -> usize
        ensures exact { result ≡ length self.now }
        ensures few { result ≤ 20000 }
    {
        self.rows.len()
    }

    /// The number of a path. None where it is no path of the table.
    pub fn find(&self, path: &Path) -> Option<PathId>
        ensures exact { result ≡ id_in self.now path.now }
        ensures found { (text : ModelRecord) → IsTableOf text self.now →
            IsFoundIn text self.now path.now result }
    {
        match self.rows.get_index_of(path) {
            Some(place) => Some(PathId(place as u32)),
            None => None,
        }
    }

    /// A path by its number.
    pub fn path_of(&self, id: PathId) -> &Path
        requires { id.0 < length self.now }
        ensures { path_at self.now id ≡ Some result.now }
    {
        let Some((path, _)) = self.rows.get_index(id.0 as usize) else {
            unreachable!()
        };
        path
    }

    /// The defined spaces whose members a path has, in order.
    pub fn layers(&self, id: PathId) -> &Order
        requires { id.0 < length self.now }
        ensures exact { layers_at self.now id ≡ Some result.now }
        ensures layered { (text : ModelRecord) → IsTableOf text self.now →
            IsLayered text self.now id result.now }
    {
        let Some((_, layers)) = self.rows.get_index(id.0 as usize) else {
            unreachable!()
        };
        layers
    }

    /// What a path binds a name to, in the text that the table is of.
    pub fn lookup(&self, text: &ModelText, id: PathId, name: &Label) -> Binding
        requires table { IsTableOf text.now self.now }
        requires sound { IsSound text.now }
        requires id { id.0 < length self.now }
        ensures { (path : Names) → path_at self.now id ≡ Some path →
            IsBinding text.now name.now result (binding text.now path name.now) }
    {
        lookup(text, self.layers(id), name)
    }
}
