//! The held item nodes as a store of namespaces.
use crate::memo::Memo;
use mx_items::ItemNamespaces;
use mx_value::namespace::Namespace;
use mx_value::node::SharedNode;

impl ItemNamespaces for Memo {
    ghost use Rattle.mx_memo.specs.Namespaces.{namespace_held};

    ghost held = { λ memo. namespace_held memo.held };

    fn namespace_of(&self, node: &SharedNode) -> Option<&Namespace> {
        Memo::namespace_of(self, node)
    }
}
