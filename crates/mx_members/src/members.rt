//! Members by key, in order of first definition.
ghost use Rattle.std.specs.Prelude.{◌≡◌, [], length, None, IfOk, OnOk, OnErr, option_copied, option_map, slice_get, zip};
ghost use Rattle.std.specs.List.{IsDistinct};
ghost use Rattle.std.specs.Map.{keys_of, lookup};
ghost use Rattle.std.specs.Map.Iter.{deref_pair};
ghost use Rattle.mx_members.specs.Words.{define, without};

use crate::chunks::Chunks;
use crate::keys::Keys;
use crate::share::Share;
use mx_list::hashed::Hashed;
use std::alloc::{AllocError, Global};
use std::hash::Hash;
use std::marker::Model;

/// Members by key. One that is defined again keeps its place, and a removal keeps the order of the others.
///
/// They stand in chunks by the places of their keys, and copies share both. To define a member again changes no key.
#[derive(Drop)]
pub struct Members<K: Eq + Hash, X> {
    keys: Keys<K>,
    members: Chunks<X>,
}

impl<K: Eq + Hash, X> Model for Members<K, X> {
    ghost use Rattle.std.specs.Prelude.{◌≡◌, List, length, zip};

    ghost Value = { List (K × X) };

    ghost view = { λ m. zip m.keys m.members };

    ghost invariant = { λ m. length m.members ≡ length m.keys };
}

impl<K: Eq + Hash + Share, X: Share> Members<K, X> {
    /// No members.
    pub fn new(alloc: Global) -> Result<Members<K, X>, AllocError>
        ensures { IfOk result (λ m. m ≡ []) }
    {
        Ok(Members {
            keys: Keys::new(alloc)?,
            members: Chunks::new(alloc),
        })
    }

    /// The same members.
    pub fn copy(&self, alloc: Global) -> Result<Members<K, X>, AllocError>
        ensures { IfOk result (λ m. m ≡ self.now) }
    {
        Ok(Members {
            keys: self.keys.copy(alloc)?,
            members: self.members.copy(alloc)?,
        })
    }

    /// Defines a member, or puts another one in its place.
    pub fn define(&mut self, key: K, member: X) -> Result<(), AllocError>
        ensures defined { OnOk result (self.new ≡ define K.eq self.old key member) }
        ensures err { OnErr result (self.new ≡ self.old) }
    {
        let alloc = self.keys.allocator();
        match self.keys.place_of(&key) {
            Some(at) => {
                self.members.set(alloc, at, member)?;
                return Ok(());
            }
            None => {
                let keys = self.keys.with(alloc, key)?;
                self.members.push(alloc, member)?;
                self.keys = keys;
                return Ok(());
            }
        }
    }

    /// The member of a key.
    pub fn get(&self, key: &K) -> Option<&X>
        ensures { option_copied result ≡ lookup (K.eq key.now) self.now }
    {
        self.get_by(&Hashed::new(key))
    }

    /// The member of a key whose hash is known.
    pub fn get_by(&self, key: &Hashed<&K>) -> Option<&X>
        ensures { option_copied result ≡ lookup (K.eq key.now.now) self.now }
    {
        match self.keys.place_by(key) {
            Some(at) => return self.members.get(at),
            None => return None,
        }
    }

    /// The members without that of a key, where it is there.
    pub fn without(&self, alloc: Global, key: &K) -> Result<Members<K, X>, AllocError>
        ensures rest { IfOk result (λ m. m ≡ without K.eq self.now key.now) }
        ensures gone { IfOk result (λ m. lookup (K.eq key.now) m ≡ None) }
    {
        let Some(at) = self.keys.place_of(key) else {
            return self.copy(alloc);
        };
        let _all_differ = self.keys.len();
        let keys = self.keys.without(alloc, at)?;
        let mut members = self.members.to_vec(alloc)?;
        members.remove(at);
        Ok(Members::of(keys, Chunks::from_vec(alloc, members)?))
    }

    /// The members of these keys, by place.
    fn of(keys: Keys<K>, members: Chunks<X>) -> Members<K, X>
        requires { length members ≡ length keys }
        ensures { result ≡ zip keys members }
    {
        Members { keys, members }
    }

    /// The key at a place, from 0.
    pub fn key_at(&self, place: usize) -> Option<&K>
        ensures { option_copied result ≡ option_map (λ e. e.0) (slice_get self.now place) }
    {
        self.keys.get(place)
    }

    /// The key and the member at a place, from 0.
    pub fn at(&self, place: usize) -> Option<(&K, &X)>
        ensures { option_map deref_pair result ≡ slice_get self.now place }
    {
        let Some(key) = self.keys.get(place) else {
            return None;
        };
        let Some(member) = self.members.get(place) else {
            return None;
        };
        Some((key, member))
    }

    /// How many members there are. With it comes what is true of all members: no key stands twice.
    pub fn count(&self) -> usize
        ensures all { result ≡ length self.now }
        ensures distinct { IsDistinct K.eq (keys_of self.now) }
    {
        self.keys.len()
    }
}
