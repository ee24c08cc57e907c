//! Links to nodes and edges, each of which takes as much memory as an id.
ghost use Rattle.std.specs.Prelude.{◌≡◌, ◌<◌, Some, None};

use crate::ids::{EdgeId, NodeId};
use std::marker::Model;

/// What stands in a link for no node and no edge. No id that is given out is as great.
const NOTHING: u32 = 4_294_967_295;

/// A node, or none.
#[derive(Clone, Copy, Drop)]
pub(crate) struct NodeLink {
    at: u32,
}

impl Model for NodeLink {
    ghost use Rattle.std.specs.Prelude.{Option};
    ghost use Rattle.mx_graph.specs.declared.ids.NodeId.{NodeId};
    ghost use Rattle.mx_graph.specs.Links.{node_link, node_number, node_number-node_link};
    ghost use Rattle.std.proofs.Common.{ap};

    ghost Value = { Option NodeId };

    ghost view = { λ link. node_link link.at };

    ghost inverse = { λ id. record { at = node_number id } };

    ghost inverse_ok = { λ link _. ap (λ n. record { at = n }) (node_number-node_link link.at) };
}

impl NodeLink {
    pub(crate) fn none() -> NodeLink
        ensures { result ≡ None }
    {
        NodeLink { at: NOTHING }
    }

    pub(crate) fn to(id: NodeId) -> NodeLink
        requires { id.at < 4294967295 }
        ensures { result ≡ Some id }
    {
        NodeLink { at: id.at }
    }

    pub(crate) fn get(self) -> Option<NodeId>
        ensures { result ≡ self }
    {
        if self.at == NOTHING {
            None
        } else {
            Some(NodeId { at: self.at })
        }
    }
}

/// An edge, or none.
#[derive(Clone, Copy, Drop)]
pub(crate) struct EdgeLink {
    at: u32,
}

impl Model for EdgeLink {
    ghost use Rattle.std.specs.Prelude.{Option};
    ghost use Rattle.mx_graph.specs.declared.ids.EdgeId.{EdgeId};
    ghost use Rattle.mx_graph.specs.Links.{edge_link, edge_number, edge_number-edge_link};
    ghost use Rattle.std.proofs.Common.{ap};

    ghost Value = { Option EdgeId };

    ghost view = { λ link. edge_link link.at };

    ghost inverse = { λ id. record { at = edge_number id } };

    ghost inverse_ok = { λ link _. ap (λ n. record { at = n }) (edge_number-edge_link link.at) };
}

impl EdgeLink {
    pub(crate) fn none() -> EdgeLink
        ensures { result ≡ None }
    {
        EdgeLink { at: NOTHING }
    }

    pub(crate) fn to(id: EdgeId) -> EdgeLink
        requires { id.at < 4294967295 }
        ensures { result ≡ Some id }
    {
        EdgeLink { at: id.at }
    }

    pub(crate) fn get(self) -> Option<EdgeId>
        ensures { result ≡ self }
    {
        if self.at == NOTHING {
            None
        } else {
            Some(EdgeId { at: self.at })
        }
    }
}
