//! Whether an input fits the cells of a text.
ghost use Rattle.std.specs.Prelude.{◌≡◌, IfOk};
ghost use Rattle.mx_model.specs.Records.{ModelRecord};
ghost use Rattle.mx_model.specs.Sound.{IsSound};
ghost use Rattle.mx_model.specs.Inputs.{fits};

use mx_apply::statics::cells_formula;
use mx_model::text::ModelText;
use mx_value::node::Node;
use std::alloc::{AllocError, Global};

/// What tells of a node whether an input of it fits the cells of a text. A text tells it by the layers of the node's path, which
/// are computed anew for each node; a table of paths can tell it too.
pub trait Fitting {
    /// The text whose cells are meant.
    ghost text: { Self → ModelRecord };

    /// What it needs to tell it.
    ghost can_tell: { Self → Type 0 };

    /// Whether a node's path is static and binds its name to cells with as many parameters as the node has arguments.
    fn fits(&self, alloc: Global, node: &Node) -> Result<bool, AllocError>
        requires { can_tell self.now }
        ensures { IfOk result (λ told. told ≡ fits (text self.now) node.now) };
}

impl Fitting for ModelText {
    ghost text = { λ t. t };

    ghost can_tell = { λ t. IsSound t };

    fn fits(&self, alloc: Global, node: &Node) -> Result<bool, AllocError> {
        match node {
            Node::Cell(at, name, args) => match cells_formula(alloc, self, at, name)? {
                Some(formula) => return Ok(formula.params.len() == args.len()),
                None => return Ok(false),
            },
            Node::Item(_, _) => return Ok(false),
        }
    }
}
