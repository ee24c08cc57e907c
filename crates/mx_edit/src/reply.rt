//! What an asked node gives.
ghost use Rattle.std.specs.Prelude.{◌≡◌, IfOk};

use mx_value::namespace::Namespace;
use mx_value::value::Value;
use std::alloc::{AllocError, Global};

/// What an asked node gives: its value, and for an item node the namespace of its space.
#[derive(Drop)]
pub struct Reply {
    pub value: Value,
    pub namespace: Option<Namespace>,
}

impl Reply {
    /// An equal reply, sharing its addresses, names and texts. Memory is taken where the value is a tuple.
    pub fn copy(&self, alloc: Global) -> Result<Reply, AllocError>
        ensures { IfOk result (λ c. c ≡ self.now) }
    {
        let value = self.value.copy(alloc)?;
        match &self.namespace {
            None => Ok(Reply {
                value,
                namespace: None,
            }),
            Some(namespace) => Ok(Reply {
                value,
                namespace: Some(namespace.copy()?),
            }),
        }
    }
}
