//! `SharedKey`: a key that its copies share.
ghost use Rattle.std.specs.Prelude.{◌≡◌, IfOk};
ghost use Rattle.std.specs.Hash as fed;
ghost use Rattle.mx_list.specs.Hashed.{hash_of};

use crate::hashed::Hashed;
use crate::shared::Shared;
use std::alloc::{AllocError, Global};
use std::hash::{Hash, Hasher};
use std::marker::Model;

/// A key that does not change, beside its hash and behind a counted pointer: it is hashed once, and a copy costs one step.
/// Contracts see the key.
#[derive(Drop)]
pub struct SharedKey<K: Eq + Hash> {
    inner: Shared<Hashed<K>>,
}

impl<K: Eq + Hash> Model for SharedKey<K> {
    ghost Value = { K };

    ghost coded = { K.code };

    ghost view = { λ s. s.inner };
}

impl<K: Eq + Hash> SharedKey<K> {
    /// The key.
    pub fn get(&self) -> &K
        ensures { result.now ≡ self.now }
    {
        self.inner.get().key()
    }
}

impl<K: Eq + Hash + Drop> SharedKey<K> {
    /// The key behind a pointer of its own. Without memory it is dropped.
    pub fn new(alloc: Global, key: K) -> Result<SharedKey<K>, AllocError>
        ensures { IfOk result (λ s. s ≡ key) }
    {
        Ok(SharedKey {
            inner: Shared::new(alloc, Hashed::new(key))?,
        })
    }

    /// The same key, shared. Refused only where the count of copies is at its end.
    pub fn copy(&self) -> Result<SharedKey<K>, AllocError>
        ensures { IfOk result (λ s. s ≡ self.now) }
    {
        Ok(SharedKey {
            inner: self.inner.copy()?,
        })
    }
}

impl<K: Eq + Hash> PartialEq for SharedKey<K> {
    ghost eq = { K.eq };

    ghost laws = { K.PartialEq.laws };

    fn eq(&self, other: &Self) -> bool {
        self.inner == other.inner
    }
}

impl<K: Eq + Hash> Eq for SharedKey<K> {
    ghost laws = { K.Eq.laws };
}

impl<K: Eq + Hash> Hash for SharedKey<K> {
    ghost hash_input = { λ key. fed.u64 (hash_of (K.hash_input key)) };

    ghost respects_eq = { λ x y same i. fed.u64 (hash_of (K.respects_eq x y same i)) };

    fn hash<H: Hasher>(&self, state: &mut H) {
        self.inner.hash(state);
    }
}
