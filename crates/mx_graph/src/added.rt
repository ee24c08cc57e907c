//! The edges in order of adding. They exist only in proofs.
ghost use Rattle.std.specs.Prelude.{◌≡◌, List, []};
ghost use base.Fml.{ftrue};
ghost use Rattle.std.specs.Coded.{coded_list};
ghost use Rattle.mx_graph.specs.Relation.{Entry, entry_code};

use crate::ids::{EdgeId, NodeId};
use std::marker::Model;

/// All edges in order of adding, of which nothing is kept when the program runs.
#[derive(Drop)]
pub(crate) struct Added {
    ghost edges: { List Entry } by { coded_list entry_code },
}

impl Model for Added {
    ghost also_owns = { λ _. ftrue };
}

/// What becomes of the edges.
#[derive(Clone, Copy, Drop)]
pub(crate) enum Change {
    Came(EdgeId, NodeId, NodeId),
    Left(EdgeId),
}

impl Added {
    ghost use Rattle.mx_graph.specs.Changes.{changed};

    pub(crate) fn none() -> Added
        ensures { result.edges ≡ [] }
    {
        Added {}
    }

    #[inline(always)]
    pub(crate) fn then(&self, _change: &Change) -> Added
        ensures { result.edges ≡ changed _change.now self.now.edges }
    {
        Added {}
    }
}
