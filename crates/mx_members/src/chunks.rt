//! `Chunks`: items in order, in chunks that copies share.
ghost use Rattle.mx_members.specs.Chunks.{joined, IsFull};
ghost use Rattle.mx_members.specs.Places.{place};
ghost use Rattle.std.specs.Prelude.{◌≡◌, ◌<◌, ◌≤◌, [], ◌∷◌, ◌++◌, length, slice_get, slice_set, option_copied, IfOk, IfSome, OnOk, OnErr};

use crate::share::Share;
use indexmap::Equivalent;
use mx_list::list::List;
use std::alloc::{AllocError, Global};
use std::hash::Hash;
use std::marker::Model;
use std::mem;

/// How many items a full chunk has.
const FULL: usize = 64;

/// A list that copies share, and that takes no memory while it is empty.
#[derive(Drop)]
struct Part<T> {
    items: Option<List<T>>,
}

impl<T> Model for Part<T> {
    ghost use Rattle.std.specs.Prelude.{List as Many};
    ghost use Rattle.mx_members.specs.Chunks.{or_empty};

    ghost Value = { Many T };

    ghost view = { λ p. or_empty p.items };
}

impl<T> Part<T> {
    /// No items.
    fn new() -> Part<T>
        ensures { result ≡ [] }
    {
        Part { items: None }
    }

    /// The items, to read.
    fn as_slice(&self) -> &[T]
        ensures { result.now ≡ self.now }
    {
        match &self.items {
            Some(items) => items.as_slice(),
            None => &[],
        }
    }
}

impl<T: Drop> Part<T> {
    /// The vector's items, without a copy of any.
    fn from_vec(alloc: Global, items: Vec<T>) -> Result<Part<T>, AllocError>
        ensures { IfOk result (λ p. p ≡ items.items) }
    {
        if items.is_empty() {
            return Ok(Part::new());
        }
        Ok(Part {
            items: Some(List::from_vec(alloc, items)?),
        })
    }

    /// The same items, in one step.
    fn copy(&self) -> Result<Part<T>, AllocError>
        ensures { IfOk result (λ p. p ≡ self.now) }
    {
        match &self.items {
            Some(items) => Ok(Part {
                items: Some(items.copy()?),
            }),
            None => Ok(Part::new()),
        }
    }

    /// The same items as a list, without a copy of any.
    fn to_list(&self, alloc: Global) -> Result<List<T>, AllocError>
        ensures { IfOk result (λ l. l ≡ self.now) }
    {
        match &self.items {
            Some(items) => items.copy(),
            None => List::empty(alloc),
        }
    }
}

/// Items in order: full chunks, and a last chunk for what stands behind them.
///
/// Copies share both. A change or an item more copies the chunk that it falls in, and the list of
/// the full chunks only where one of them changes or one is added.
#[derive(Drop)]
pub struct Chunks<T> {
    full: Part<List<T>>,
    last: Part<T>,
    count: usize,
}

impl<T> Model for Chunks<T> {
    ghost use Rattle.std.specs.Prelude.{◌≡◌, ◌≤◌, ◌++◌, List as Many, length};
    ghost use Rattle.mx_members.specs.Chunks.{joined, IsFull};

    ghost Value = { Many T };

    ghost view = { λ c. joined c.full ++ c.last };

    ghost invariant = { λ c. (c.count ≡ length (joined c.full ++ c.last))
        × IsFull 64 c.full × (length c.last ≤ 64) };
}

impl<T> Chunks<T> {
    /// No items. Takes no memory until the first item comes.
    pub fn new(_alloc: Global) -> Chunks<T>
        ensures { result ≡ [] }
    {
        Chunks {
            full: Part::new(),
            last: Part::new(),
            count: 0,
        }
    }

    /// How many items there are.
    pub fn len(&self) -> usize
        ensures { result ≡ length self.now }
    {
        self.count
    }

    /// The item at a place, from 0.
    pub fn get(&self, at: usize) -> Option<&T>
        ensures { option_copied result ≡ slice_get self.now at }
    {
        let last = self.last.as_slice();
        let before = self.count - last.len();
        if before <= at {
            return item_at(last, at - before);
        }
        let Some(chunk) = item_at(self.full.as_slice(), at / FULL) else {
            unreachable!()
        };
        item_at(chunk.as_slice(), at % FULL)
    }
}

impl<T: Eq + Hash> Chunks<T> {
    /// The place of the first item that a key stands for, from 0.
    pub fn place_of<Q: Equivalent<T>>(&self, key: Q) -> Option<usize>
        ensures place { result ≡ place (Q.equivalent key) self.now }
        ensures within { IfSome result (λ at. at < length self.now) }
    {
        let full = self.full.as_slice();
        let last = self.last.as_slice();
        let before = self.len() - last.len();
        for at in 0..full.len() {
            let Some(chunk) = item_at(full, at) else {
                unreachable!()
            };
            match place_among(chunk.as_slice(), key) {
                Some(place) => return Some(at * FULL + place),
                None => {}
            }
        }
        match place_among(last, key) {
            Some(place) => return Some(before + place),
            None => return None,
        }
    }
}

/// The place of the first item that a key stands for among a few.
fn place_among<T: Eq + Hash, Q: Equivalent<T>>(items: &[T], key: Q) -> Option<usize>
    ensures { result ≡ place (Q.equivalent key) items.now }
{
    for at in 0..items.len() {
        if key.equivalent(&items[at]) {
            return Some(at);
        }
    }
    None
}

impl<T: Drop> Chunks<T> {
    /// The same items, in two steps.
    pub fn copy(&self, _alloc: Global) -> Result<Chunks<T>, AllocError>
        ensures { IfOk result (λ c. c ≡ self.now) }
    {
        Ok(Chunks {
            full: self.full.copy()?,
            last: self.last.copy()?,
            count: self.count,
        })
    }

    /// The vector's items, without a copy of any.
    pub fn from_vec(alloc: Global, items: Vec<T>) -> Result<Chunks<T>, AllocError>
        ensures { IfOk result (λ c. c ≡ items.items) }
    {
        let count = items.len();
        let mut full = Vec::with_capacity(alloc, count / FULL)?;
        let mut last = Vec::with_capacity(alloc, count.min(FULL))?;
        for item in items {
            make_room(alloc, &mut full, &mut last)?;
            last.push(item)?;
        }
        Ok(Chunks {
            full: Part::from_vec(alloc, full)?,
            last: Part::from_vec(alloc, last)?,
            count,
        })
    }
}

/// Puts the last chunk behind the others where it is full, and begins another.
fn make_room<T: Drop>(
    alloc: Global,
    full: &mut Vec<List<T>>,
    last: &mut Vec<T>,
) -> Result<(), AllocError>
    requires full { IsFull 64 full.old.items }
    requires last { length last.old.items ≤ 64 }
    ensures full { OnOk result (IsFull 64 full.new.items) }
    ensures room { OnOk result (length last.new.items < 64) }
    ensures items { OnOk result (joined full.new.items ++ last.new.items
        ≡ joined full.old.items ++ last.old.items) }
{
    if last.len() < FULL {
        return Ok(());
    }
    let chunk = mem::replace(last, Vec::with_capacity(alloc, FULL)?);
    full.push(List::from_vec(alloc, chunk)?)?;
    Ok(())
}

impl<T: Share> Chunks<T> {
    /// The same items in a vector.
    pub fn to_vec(&self, alloc: Global) -> Result<Vec<T>, AllocError>
        ensures { IfOk result (λ items. items.items ≡ self.now) }
    {
        let mut items = Vec::with_capacity(alloc, self.count)?;
        for at in 0..self.count {
            let Some(item) = self.get(at) else {
                unreachable!()
            };
            items.push(item.share(alloc)?)?;
        }
        Ok(items)
    }

    /// Puts an item in the place of another.
    pub fn set(&mut self, alloc: Global, at: usize, item: T) -> Result<(), AllocError>
        requires { at < length self.old }
        ensures ok { OnOk result (self.new ≡ slice_set self.old at item) }
        ensures err { OnErr result (self.new ≡ self.old) }
    {
        let last = self.last.as_slice();
        let before = self.count - last.len();
        if before <= at {
            let mut items = shared_items(alloc, last)?;
            items[at - before] = item;
            self.last = Part::from_vec(alloc, items)?;
            return Ok(());
        }
        let full = with_changed(alloc, self.full.as_slice(), at, item)?;
        self.full = Part::from_vec(alloc, full)?;
        Ok(())
    }

    /// Adds an item behind the others.
    pub fn push(&mut self, alloc: Global, item: T) -> Result<(), AllocError>
        ensures ok { OnOk result (self.new ≡ self.old ++ item ∷ []) }
        ensures err { OnErr result (self.new ≡ self.old) }
    {
        let Some(count) = self.count.checked_add(1) else {
            return Err(AllocError);
        };
        let last = self.last.as_slice();
        if last.len() < FULL {
            self.last = Part::from_vec(alloc, with_one(alloc, last, item)?)?;
            self.count = count;
            return Ok(());
        }
        let full = with_one(alloc, self.full.as_slice(), self.last.to_list(alloc)?)?;
        let full = Part::from_vec(alloc, full)?;
        self.last = Part::from_vec(alloc, with_one(alloc, &[], item)?)?;
        self.full = full;
        self.count = count;
        Ok(())
    }
}

/// Full chunks with another item at a place. All chunks but one are shared.
fn with_changed<T: Share>(
    alloc: Global,
    full: &[List<T>],
    at: usize,
    item: T,
) -> Result<Vec<List<T>>, AllocError>
    requires full { IsFull 64 full.now }
    requires within { at < length (joined full.now) }
    ensures full { IfOk result (λ chunks. IsFull 64 chunks.items) }
    ensures items { IfOk result (λ chunks.
        joined chunks.items ≡ slice_set (joined full.now) at item) }
{
    let Some(chunk) = item_at(full, at / FULL) else {
        unreachable!()
    };
    let mut items = shared_items(alloc, chunk.as_slice())?;
    items[at % FULL] = item;
    let mut chunks = shared_items(alloc, full)?;
    chunks[at / FULL] = List::from_vec(alloc, items)?;
    Ok(chunks)
}

/// The same items, shared, and one behind them, with no room for more.
fn with_one<T: Share>(alloc: Global, items: &[T], more: T) -> Result<Vec<T>, AllocError>
    ensures { IfOk result (λ all. all.items ≡ items.now ++ more ∷ []) }
{
    let mut all = Vec::with_capacity(alloc, items.len().saturating_add(1))?;
    for item in items {
        all.push(item.share(alloc)?)?;
    }
    all.push(more)?;
    Ok(all)
}

/// The same items in a vector of their own.
pub(crate) fn shared_items<T: Share>(alloc: Global, items: &[T]) -> Result<Vec<T>, AllocError>
    ensures { IfOk result (λ copied. copied.items ≡ items.now) }
{
    let mut copied = Vec::with_capacity(alloc, items.len())?;
    for item in items {
        copied.push(item.share(alloc)?)?;
    }
    Ok(copied)
}

/// The item at a place, from 0.
pub(crate) fn item_at<T>(items: &[T], at: usize) -> Option<&T>
    ensures { option_copied result ≡ slice_get items.now at }
{
    items.get(at)
}
