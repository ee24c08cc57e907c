//! Items that are held once each.
ghost use Rattle.std.specs.Prelude.{◌≡◌, ◌++◌, ◌∷◌, [], IfOk, OnOk, OnErr};
ghost use Rattle.std.specs.List.{list_any};
ghost use Rattle.indexmap.specs.IndexSet.{insert_all, insert_key};
ghost use Rattle.mx_read_set.specs.Seen.{added};
ghost use Rattle.mx_read_set.specs.Distinct.{items_of, IsEachOnce};

use indexmap::IndexSet;
use std::alloc::{AllocError, Global};
use std::hash::Hash;
use std::marker::Model;
use std::mem;

/// So many are looked through. More are held by hash.
const FEW: usize = 16;

/// So many have room once the first is there.
const FIRST: usize = 8;

/// How items are held.
#[derive(Drop)]
enum Held<T: Eq + Hash> {
    /// They are few and are looked through.
    Few(Vec<T>),
    /// They are found by hash.
    Many(Box<IndexSet<T>>),
}

/// Items, each once, in order of first occurrence.
#[derive(Drop)]
pub struct Distinct<T: Eq + Hash> {
    alloc: Global,
    held: Held<T>,
}

impl<T: Eq + Hash> Model for Distinct<T> {
    ghost use Rattle.std.specs.Coded.{coded_list};
    ghost use Rattle.std.specs.Prelude.{List};

    ghost Value = { List T };

    ghost coded = { coded_list T.code };

    ghost use Rattle.mx_read_set.specs.Distinct.{items_of, IsEachOnce};

    ghost view = { λ s. items_of s.held };

    ghost invariant = { λ s. IsEachOnce T.eq s.held };
}

impl<T: Eq + Hash + Drop> Distinct<T> {
    /// No items. Takes no memory until the first item comes.
    pub fn new(alloc: Global) -> Distinct<T>
        ensures { result ≡ [] }
    {
        Distinct {
            alloc,
            held: Held::Few(Vec::new(alloc)),
        }
    }

    /// An item goes behind the others, unless one that equals it is there.
    pub fn enter(&mut self, item: T) -> Result<(), AllocError>
        ensures { OnOk result (self.new ≡ added T.eq self.old item) }
    {
        enter_in(self.alloc, &mut self.held, item)
    }

    /// The items, to read and to iterate over.
    pub fn as_slice(&self) -> &[T]
        ensures { result.now ≡ self.now }
    {
        match &self.held {
            Held::Few(items) => return items.as_slice(),
            Held::Many(set) => return set.as_slice(),
        }
    }

    /// The items, without a copy of any, in as much memory as they need.
    pub fn into_vec(self) -> Result<Vec<T>, AllocError>
        ensures { IfOk result (λ items. items.items ≡ self) }
    {
        let Distinct { alloc, held } = self;
        match held {
            Held::Few(mut items) => {
                items.shrink_to_fit();
                return Ok(items);
            }
            Held::Many(set) => return all_of(alloc, Box::into_inner(set)),
        }
    }
}

/// Whether an item is among these.
fn has_item<T: PartialEq>(items: &[T], item: &T) -> bool
    ensures { result ≡ list_any (λ i. T.eq i item.now) items.now }
{
    items.iter().any(|i| *i == *item)
}

/// One item more among a few. The first one makes room for some.
fn push_few<T: Drop>(items: &mut Vec<T>, item: T) -> Result<(), AllocError>
    ensures ok { OnOk result (items.new.items ≡ items.old.items ++ item ∷ []) }
    ensures err { OnErr result (items.new.items ≡ items.old.items) }
{
    if items.is_empty() {
        items.reserve(FIRST)?;
    }
    items.push(item)?;
    Ok(())
}

/// Items by hash.
fn by_hash<T: Eq + Hash + Drop>(alloc: Global, items: Vec<T>) -> Result<IndexSet<T>, AllocError>
    ensures { IfOk result (λ set. set.keys ≡ insert_all T.eq [] items.items) }
{
    let mut set = IndexSet::with_capacity(alloc, FEW + 1)?;
    set.extend(items)?;
    Ok(set)
}

/// The items of a set.
fn all_of<T: Eq + Hash + Drop>(alloc: Global, set: IndexSet<T>) -> Result<Vec<T>, AllocError>
    ensures { IfOk result (λ items. items.items ≡ set.keys) }
{
    set.into_iter().collect(alloc)
}

/// Enters one more item among these, and holds all of them by hash.
fn enter_past<T: Eq + Hash + Drop>(
    alloc: Global,
    items: &mut Vec<T>,
    item: T,
) -> Result<IndexSet<T>, AllocError>
    requires { insert_all T.eq [] items.old.items ≡ items.old.items }
    ensures all { IfOk result (λ set. set.keys ≡ insert_key T.eq items.old.items item) }
    ensures left { items.new.items ≡ [] }
{
    let few = mem::replace(items, Vec::new(alloc));
    let mut set = by_hash(alloc, few)?;
    set.insert(item)?;
    Ok(set)
}

/// Enters an item, unless it is there.
fn enter_in<T: Eq + Hash + Drop>(
    alloc: Global,
    held: &mut Held<T>,
    item: T,
) -> Result<(), AllocError>
    requires { IsEachOnce T.eq held.old }
    ensures items { OnOk result (items_of held.new ≡ added T.eq (items_of held.old) item) }
    ensures once { IsEachOnce T.eq held.new }
{
    match held {
        Held::Few(items) => {
            if has_item(items, &item) {
                return Ok(());
            }
            if items.len() < FEW {
                push_few(items, item)?;
                return Ok(());
            }
            let set = enter_past(alloc, items, item)?;
            *held = Held::Many(Box::new(alloc, set)?);
            return Ok(());
        }
        Held::Many(set) => {
            set.insert(item)?;
            return Ok(());
        }
    }
}
