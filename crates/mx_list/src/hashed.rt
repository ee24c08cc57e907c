//! `Hashed`: a key beside its hash.
ghost use Rattle.std.specs.Prelude.{◌≡◌};
ghost use Rattle.std.specs.Hash as fed;
ghost use Rattle.mx_list.specs.Hashed.{hash_of};

use std::hash::{FoldHasher, Hash, Hasher};
use std::marker::Model;

/// A key beside its hash. So a key is hashed once, when it is looked for or comes, and no set or map that it is put into or
/// looked for in does so again. Contracts see the key.
#[derive(Drop)]
pub struct Hashed<K: Eq + Hash> {
    key: K,
    hash: u64,
}

impl<K: Eq + Hash> Model for Hashed<K> {
    ghost use Rattle.std.specs.Prelude.{◌≡◌};
    ghost use Rattle.mx_list.specs.Hashed.{hash_of};

    ghost Value = { K };

    ghost coded = { K.code };

    ghost view = { λ h. h.key };

    ghost invariant = { λ h. h.hash ≡ hash_of (K.hash_input h.key) };
}

impl<K: Eq + Hash> Hashed<K> {
    /// The key with its hash.
    pub fn new(key: K) -> Hashed<K>
        ensures { result ≡ key }
    {
        let hash = hash_of(&key);
        Hashed { key, hash }
    }

    /// The key.
    pub fn key(&self) -> &K
        ensures { result.now ≡ self.now }
    {
        &self.key
    }

    /// The same key in other memory, with its hash.
    pub fn again(&self, key: K) -> Hashed<K>
        requires { key ≡ self.now }
        ensures { result ≡ key }
    {
        Hashed {
            key,
            hash: self.hash,
        }
    }
}

impl<'a, K: Eq + Hash> Hashed<&'a K> {
    /// Whether a key that is lent is this one. Keys with other hashes are not compared.
    pub fn is_key(&self, key: &Hashed<K>) -> bool
        ensures { result ≡ K.eq self.now.now key.now }
    {
        self.hash == key.hash && *self.key == key.key
    }
}

/// The hash of a key.
fn hash_of<K: Eq + Hash>(key: &K) -> u64
    ensures { result ≡ hash_of (K.hash_input key.now) }
{
    let mut state = FoldHasher::default();
    key.hash(&mut state);
    state.finish()
}

/// Keys with other hashes are not compared.
impl<K: Eq + Hash> PartialEq for Hashed<K> {
    ghost eq = { K.eq };

    ghost laws = { K.PartialEq.laws };

    fn eq(&self, other: &Self) -> bool {
        self.hash == other.hash && self.key == other.key
    }
}

impl<K: Eq + Hash> Eq for Hashed<K> {
    ghost laws = { K.Eq.laws };
}

impl<K: Eq + Hash> Hash for Hashed<K> {
    ghost hash_input = { λ key. fed.u64 (hash_of (K.hash_input key)) };

    ghost respects_eq = { λ x y same i. fed.u64 (hash_of (K.respects_eq x y same i)) };

    fn hash<H: Hasher>(&self, state: &mut H) {
        state.write_u64(self.hash);
    }
}
