//! The order of the spaces whose members a path has.
ghost use Rattle.std.specs.Prelude.{IfOk, MatchResult, length};
ghost use Rattle.mx_c3.specs.InOrder.{AllBelow};
ghost use Rattle.mx_engine.specs.Order.{AreLayers, ArePaths, IsUnordered};

use crate::engine::Engine;
use crate::refusal::OrderRefusal;
use mx_c3::lists::Order;
use mx_model::laws::layer_laws;
use mx_model::text::ModelText;
use mx_value::node::Path;
use std::alloc::{AllocError, Global};

impl Engine {
    /// The paths of the spaces whose members a static path has, in the order in which a name is sought in them.
    pub fn order(&self, path: &Path) -> Result<Vec<Path>, OrderRefusal>
        ensures { let text = self.now.text in
            MatchResult result (λ paths. AreLayers text path.now paths.items) (IsUnordered text path.now) }
    {
        layer_laws();
        let text = self.world.text();
        let paths = self.world.paths();
        let Some(id) = paths.find(path) else {
            return Err(OrderRefusal::NoSuchSpace);
        };
        match paths_of(self.alloc, text, paths.layers(id)) {
            Ok(order) => return Ok(order),
            Err(_) => return Err(OrderRefusal::NoMemory),
        }
    }
}

/// The paths of these spaces.
fn paths_of(alloc: Global, text: &ModelText, spaces: &Order) -> Result<Vec<Path>, AllocError>
    requires { AllBelow (length text.now.spaces) spaces.now }
    ensures { IfOk result (λ paths. ArePaths text.now spaces.now paths.items) }
{
    let mut paths = Vec::new(alloc);
    for s in spaces.as_slice() {
        paths.push(text.path_of(*s).copy()?)?;
    }
    return Ok(paths);
}
