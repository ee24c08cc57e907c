//! Keys, each once, in order of their coming.
ghost use Rattle.std.specs.Prelude.{◌≡◌, ◌++◌, ◌∷◌, ◌<◌, [], length, None, IfOk, IfSome, OnOk, OnErr, option_copied, slice_get, remove};
ghost use Rattle.std.specs.List.{IsDistinct};
ghost use Rattle.indexmap.specs.IndexSet.{insert_key};
ghost use Rattle.mx_members.specs.Places.{place};

use crate::chunks::{Chunks, item_at};
use crate::share::Share;
use crate::sought::Sought;
use indexmap::IndexSet;
use mx_list::hashed::Hashed;
use mx_list::shared::Shared;
use std::alloc::{AllocError, Global};
use std::hash::Hash;
use std::marker::Model;

/// Keys, each once, in order of their coming.
///
/// They stand beside their hashes in two sets and in a short list behind them, which copies share. A copy joins the list with the
/// set before it once it has passed twice that one's root, and joins all three once the last two are long beside the first. The list
/// is looked through, hashes first.
#[derive(Drop)]
pub struct Keys<K: Eq + Hash> {
    base: Shared<IndexSet<Hashed<K>>>,
    middle: Shared<IndexSet<Hashed<K>>>,
    last: Chunks<Hashed<K>>,
    count: usize,
}

impl<K: Eq + Hash> Model for Keys<K> {
    ghost use Rattle.std.specs.Prelude.{◌≡◌, List, ◌++◌, length};
    ghost use Rattle.std.specs.List.{IsDistinct};

    ghost Value = { List K };

    ghost view = { λ k. (k.base.keys ++ k.middle.keys) ++ k.last };

    ghost invariant = { λ k. IsDistinct K.eq ((k.base.keys ++ k.middle.keys) ++ k.last)
        × (k.count ≡ length ((k.base.keys ++ k.middle.keys) ++ k.last)) };
}

impl<K: Eq + Hash + Share> Keys<K> {
    /// No keys.
    pub fn new(alloc: Global) -> Result<Keys<K>, AllocError>
        ensures { IfOk result (λ k. k ≡ []) }
    {
        Keys::from_set(alloc, IndexSet::new(alloc))
    }

    /// These keys.
    pub fn from_slice(alloc: Global, keys: &[K]) -> Result<Keys<K>, AllocError>
        requires once { IsDistinct K.eq keys.now }
        ensures { IfOk result (λ k. k ≡ keys.now) }
    {
        let set = set_of(alloc, keys)?;
        Keys::from_set(alloc, set)
    }

    /// The keys of a set.
    fn from_set(alloc: Global, keys: IndexSet<Hashed<K>>) -> Result<Keys<K>, AllocError>
        ensures { IfOk result (λ k. k ≡ keys.keys) }
    {
        let count = keys.len();
        let base = Shared::new(alloc, keys)?;
        Ok(Keys {
            base,
            middle: Shared::new(alloc, IndexSet::new(alloc))?,
            last: Chunks::new(alloc),
            count,
        })
    }

    /// How many keys there are. With it comes what is true of all: none stands twice.
    pub fn len(&self) -> usize
        ensures all { result ≡ length self.now }
        ensures distinct { IsDistinct K.eq self.now }
    {
        self.count
    }

    /// The same keys.
    pub fn copy(&self, alloc: Global) -> Result<Keys<K>, AllocError>
        ensures { IfOk result (λ k. k ≡ self.now) }
    {
        if !self.is_last_long() {
            return Ok(Keys {
                base: self.base.copy()?,
                middle: self.middle.copy()?,
                last: self.last.copy(alloc)?,
                count: self.count,
            });
        }
        if self.is_base_short() {
            let keys = self.joined(alloc)?;
            return Keys::from_set(alloc, keys);
        }
        let middle = with_last(alloc, self.middle.get(), &self.last)?;
        Ok(Keys {
            base: self.base.copy()?,
            middle: Shared::new(alloc, middle)?,
            last: Chunks::new(alloc),
            count: self.count,
        })
    }

    /// Whether the list has passed twice the root of the set before it.
    fn is_last_long(&self) -> bool {
        let last = self.last.len();
        last > 16 && self.middle.get().len() / last < last / 4
    }

    /// Whether what stands behind the first set, to the third power, has passed 16 times the square of that one's length. So a key
    /// that comes costs the fewest copies of others.
    fn is_base_short(&self) -> bool {
        let behind = self.middle.get().len().saturating_add(self.last.len());
        let times = self.base.get().len() / behind.max(1);
        behind > 64 && times.saturating_mul(times) < behind / 16
    }

    /// All keys in one set.
    fn joined(&self, alloc: Global) -> Result<IndexSet<Hashed<K>>, AllocError>
        ensures { IfOk result (λ keys. keys.keys ≡ self.now) }
    {
        let base = self.base.get();
        let middle = self.middle.get();
        let last = self.last.to_vec(alloc)?;
        let mut keys = IndexSet::with_capacity(alloc, self.count)?;
        add_keys(alloc, &mut keys, base.as_slice())?;
        add_keys(alloc, &mut keys, middle.as_slice())?;
        add_keys(alloc, &mut keys, last.as_slice())?;
        Ok(keys)
    }

    /// The place of a key, from 0. It is hashed once.
    pub fn place_of(&self, key: &K) -> Option<usize>
        ensures { result ≡ place (K.eq key.now) self.now }
    {
        self.place_by(&Hashed::new(key))
    }

    /// The place of a key whose hash is known, from 0.
    pub fn place_by(&self, key: &Hashed<&K>) -> Option<usize>
        ensures { result ≡ place (K.eq key.now.now) self.now }
    {
        let base = self.base.get();
        let before_last = self.count - self.last.len();
        match place_in(base, key) {
            Some(at) => return Some(at),
            None => {}
        }
        match place_in(self.middle.get(), key) {
            Some(at) => return Some(base.len() + at),
            None => {}
        }
        match self.last.place_of(&Sought { key }) {
            Some(at) => return Some(before_last + at),
            None => return None,
        }
    }

    /// The key at a place, from 0.
    pub fn get(&self, place: usize) -> Option<&K>
        ensures { option_copied result ≡ slice_get self.now place }
    {
        let base = self.base.get();
        let middle = self.middle.get();
        if place < base.len() {
            return key_of(base.get_index(place));
        }
        let behind = place - base.len();
        if behind < middle.len() {
            return key_of(middle.get_index(behind));
        }
        key_of(self.last.get(behind - middle.len()))
    }

    /// Adds a key behind the others, unless it is there.
    pub fn enter(&mut self, key: K) -> Result<(), AllocError>
        ensures ok { OnOk result (self.new ≡ insert_key K.eq self.old key) }
        ensures err { OnErr result (self.new ≡ self.old) }
    {
        match self.place_of(&key) {
            Some(_) => return Ok(()),
            None => {
                self.push(key)?;
                return Ok(());
            }
        }
    }

    /// Adds a new key behind the others.
    fn push(&mut self, key: K) -> Result<(), AllocError>
        requires new { place (K.eq key) self.old ≡ None }
        ensures ok { OnOk result (self.new ≡ self.old ++ key ∷ []) }
        ensures err { OnErr result (self.new ≡ self.old) }
    {
        let Some(count) = self.count.checked_add(1) else {
            return Err(AllocError);
        };
        let alloc = self.allocator();
        self.last.push(alloc, Hashed::new(key))?;
        self.count = count;
        Ok(())
    }

    /// The keys with a new one behind the others.
    pub fn with(&self, alloc: Global, key: K) -> Result<Keys<K>, AllocError>
        requires new { place (K.eq key) self.now ≡ None }
        ensures { IfOk result (λ k. k ≡ self.now ++ key ∷ []) }
    {
        let mut keys = self.copy(alloc)?;
        keys.push(key)?;
        Ok(keys)
    }

    /// Where the keys take their memory from.
    pub fn allocator(&self) -> Global {
        *self.base.get().allocator()
    }

    /// The keys without the one at a place.
    pub fn without(&self, alloc: Global, at: usize) -> Result<Keys<K>, AllocError>
        requires { at < length self.now }
        ensures { IfOk result (λ k. k ≡ remove self.now at) }
    {
        let mut keys = self.joined(alloc)?;
        keys.shift_remove_index(at);
        Keys::from_set(alloc, keys)
    }
}

/// The key alone.
fn key_of<K: Eq + Hash>(key: Option<&Hashed<K>>) -> Option<&K>
    ensures { option_copied result ≡ option_copied key.entry }
{
    match key {
        Some(key) => Some(key.key()),
        None => None,
    }
}

/// The keys, shared, in a set.
fn set_of<K: Eq + Hash + Share>(
    alloc: Global,
    keys: &[K],
) -> Result<IndexSet<Hashed<K>>, AllocError>
    requires { IsDistinct K.eq keys.now }
    ensures { IfOk result (λ set. set.keys ≡ keys.now) }
{
    let mut set = IndexSet::with_capacity(alloc, keys.len())?;
    for at in 0..keys.len() {
        let Some(key) = item_at(keys, at) else {
            unreachable!()
        };
        set.insert(Hashed::new(key.share(alloc)?))?;
    }
    Ok(set)
}

/// The place of a key in a set.
fn place_in<K: Eq + Hash>(keys: &IndexSet<Hashed<K>>, key: &Hashed<&K>) -> Option<usize>
    ensures place { result ≡ place (K.eq key.now.now) keys.now.keys }
    ensures within { IfSome result (λ at. at < length keys.now.keys) }
{
    if keys.is_empty() {
        return None;
    }
    keys.get_index_of(&Sought { key })
}

/// The keys of a set and a few behind them, shared, in a set of their own.
fn with_last<K: Eq + Hash + Share>(
    alloc: Global,
    front: &IndexSet<Hashed<K>>,
    last: &Chunks<Hashed<K>>,
) -> Result<IndexSet<Hashed<K>>, AllocError>
    requires { IsDistinct K.eq (front.now.keys ++ last.now) }
    ensures { IfOk result (λ keys. keys.keys ≡ front.now.keys ++ last.now) }
{
    let last = last.to_vec(alloc)?;
    let mut keys = IndexSet::with_capacity(alloc, front.len().saturating_add(last.len()))?;
    add_keys(alloc, &mut keys, front.as_slice())?;
    add_keys(alloc, &mut keys, last.as_slice())?;
    Ok(keys)
}

/// Adds keys, shared, behind those of a set.
fn add_keys<K: Eq + Hash + Share>(
    alloc: Global,
    keys: &mut IndexSet<Hashed<K>>,
    more: &[Hashed<K>],
) -> Result<(), AllocError>
    requires { IsDistinct K.eq (keys.old.keys ++ more.now) }
    ensures { OnOk result (keys.new.keys ≡ keys.old.keys ++ more.now) }
{
    for at in 0..more.len() {
        let Some(key) = item_at(more, at) else {
            unreachable!()
        };
        keys.insert(key.share(alloc)?)?;
    }
    Ok(())
}
