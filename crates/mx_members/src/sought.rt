//! A key that is lent is looked for among keys that are kept.
ghost use Rattle.std.specs.Hash as fed;
ghost use Rattle.mx_list.specs.Hashed.{hash_of};

use indexmap::Equivalent;
use mx_list::hashed::Hashed;
use std::hash::Hash;

/// A key that is lent, whose hash is known.
#[derive(PartialEq, Eq, Hash, Drop)]
pub(crate) struct Sought<'b, 'a, K: Eq + Hash> {
    pub(crate) key: &'b Hashed<&'a K>,
}

impl<'c, 'b, 'a, K: Eq + Hash> Equivalent<Hashed<K>> for &'c Sought<'b, 'a, K> {
    ghost equivalent = { λ q. K.eq q.now.key.now.now };

    ghost respects_hash = { λ q k same i. fed.u64 (hash_of (K.respects_eq q.now.key.now.now k same i)) };

    ghost respects_eq = { λ q. K.Eq.laws.congr q.now.key.now.now };

    fn equivalent(&self, key: &Hashed<K>) -> bool {
        self.key.is_key(key)
    }
}
