//! Where the namespaces of items are found.
ghost use Rattle.std.specs.Prelude.{◌≡◌, Option, Some, None, MatchOption};
ghost use Rattle.mx_value.specs.declared.namespace.Namespace.{Namespace as Space};
ghost use Rattle.mx_value.specs.declared.node.Node.{Node as Asked};

use mx_value::namespace::Namespace;
use mx_value::node::SharedNode;

/// What holds item nodes, each with the namespace of its space.
pub trait ItemNamespaces {
    /// The namespace that is held for a node.
    ghost held: { Self → Asked → Option Space };

    /// The namespace that is held for a node. Takes no memory.
    fn namespace_of(&self, node: &SharedNode) -> Option<&Namespace>
        ensures { MatchOption result (held self.now node.now ≡ None) (λ n. held self.now node.now ≡ Some n.now) };
}
