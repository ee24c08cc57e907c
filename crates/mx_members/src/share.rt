//! What is copied at once.
ghost use Rattle.std.specs.Prelude.{◌≡◌, IfOk};

use mx_edit::reference::RefValue;
use mx_edit::table::Table;
use mx_list::hashed::Hashed;
use mx_list::list::List;
use mx_list::shared::Shared;
use mx_value::label::Label;
use mx_value::node::Node;
use std::alloc::{AllocError, Global};
use std::hash::Hash;

/// What is copied at once: a copy shares what it is made of.
pub trait Share: Drop {
    /// An equal value.
    fn share(&self, alloc: Global) -> Result<Self, AllocError>
        ensures { IfOk result (λ c. c ≡ self.now) };
}

impl Share for Label {
    fn share(&self, _alloc: Global) -> Result<Label, AllocError> {
        self.copy()
    }
}

impl Share for Node {
    fn share(&self, alloc: Global) -> Result<Node, AllocError> {
        self.copy(alloc)
    }
}

impl Share for RefValue {
    fn share(&self, _alloc: Global) -> Result<RefValue, AllocError> {
        self.copy()
    }
}

impl Share for Table {
    fn share(&self, _alloc: Global) -> Result<Table, AllocError> {
        self.copy()
    }
}

impl<T: Drop> Share for List<T> {
    fn share(&self, _alloc: Global) -> Result<List<T>, AllocError> {
        self.copy()
    }
}

impl<T: Drop> Share for Shared<T> {
    fn share(&self, _alloc: Global) -> Result<Shared<T>, AllocError> {
        self.copy()
    }
}

impl<K: Eq + Hash + Share> Share for Hashed<K> {
    fn share(&self, alloc: Global) -> Result<Hashed<K>, AllocError> {
        Ok(self.again(self.key().share(alloc)?))
    }
}
