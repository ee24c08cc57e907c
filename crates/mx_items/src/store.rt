//! A store of item nodes.
ghost use Rattle.std.specs.Prelude.{◌≡◌, Some, None, IfOk, OnOk, OnErr, if◌then◌else◌};
ghost use Rattle.mx_value.specs.Equality.{node_eq};
ghost use Rattle.mx_value.specs.declared.node.Node.{Node as Asked};
ghost use Rattle.mx_items.specs.Store.{held_in};
ghost use Rattle.mx_items.specs.Way.{space_at, DoesTell};

use crate::held::ItemNamespaces;
use crate::refusal::ItemsRefusal;
use crate::way::space_of;
use mx_value::namespace::Namespace;
use mx_value::node::{Node, SharedNode};
use mx_value::value::Addr;
use std::alloc::{AllocError, Global};
use std::collections::HashMap;

/// Item nodes, each with the namespace of its space. Contracts see the namespace that is held for a node.
#[derive(Drop)]
pub struct ItemStore {
    alloc: Global,
    table: HashMap<Node, Namespace>,
}

impl ItemNamespaces for ItemStore {
    ghost use Rattle.mx_items.specs.Store.{held_in};

    ghost held = { held_in };

    fn namespace_of(&self, node: &SharedNode) -> Option<&Namespace> {
        self.table.get(node.get())
    }
}

impl ItemStore {
    /// A store of no node.
    pub fn new(alloc: Global) -> ItemStore
        ensures { (n : Asked) → held_in result n ≡ None }
    {
        ItemStore {
            alloc,
            table: HashMap::new(alloc),
        }
    }

    /// Enters an item node with the namespace of its space, in place of the one that is held for it. After an error the
    /// store is as before.
    pub fn put(&mut self, node: Node, namespace: Namespace) -> Result<(), AllocError>
        ensures ok { OnOk result
            ((n : Asked) →
            held_in self.new n ≡ (if node_eq node n then Some namespace else held_in self.old n)) }
        ensures err { OnErr result ((n : Asked) → held_in self.new n ≡ held_in self.old n) }
    {
        self.table.insert(node, namespace)?;
        Ok(())
    }

    /// Takes a node out, where it is there. Takes no memory.
    pub fn remove(&mut self, node: &Node)
        ensures { (n : Asked) →
            held_in self.new n ≡ (if node_eq node.now n then None else held_in self.old n) }
    {
        let _ = self.table.remove(node);
    }

    /// The namespace that an address leads to, by the items that are held here.
    pub fn space_of(&self, addr: &Addr) -> Result<Namespace, ItemsRefusal>
        ensures { DoesTell result (space_at (held_in self.now) addr.now) }
    {
        space_of(self.alloc, self, addr)
    }
}
