//! Orders of spaces, and the bases of all spaces.
ghost use Rattle.std.specs.Prelude.{◌≡◌, ◌<◌, [], ◌∷◌, ◌++◌, length, slice_get, slice_set, Some, ◌↔◌, IsTrue, IfOk, OnOk, OnErr};
ghost use Rattle.mx_c3.specs.Lists.{Distinct};
ghost use Rattle.mx_c3.specs.InOrder.{AllBelow, IsInOrder};

use crate::space::SpaceId;
use mx_list::list::List;
use std::alloc::{AllocError, Global};
use std::marker::Model;

/// A list of spaces. Its copies share it.
#[derive(Drop)]
pub struct Order {
    spaces: List<SpaceId>,
}

impl Model for Order {
    ghost use Rattle.std.specs.Coded.{coded_list};
    ghost use Rattle.std.specs.Prelude.{List as Many};
    ghost use Rattle.mx_c3.specs.declared.space.SpaceId.{SpaceId};
    ghost use Rattle.mx_c3.specs.contracts.space.SpaceId as space;

    ghost Value = { Many SpaceId };

    ghost coded = { coded_list space.the_row.coded };

    ghost view = { λ order. order.spaces };
}

impl Order {
    pub fn from_vec(alloc: Global, spaces: Vec<SpaceId>) -> Result<Order, AllocError>
        ensures { IfOk result (λ it. it ≡ spaces.items) }
    {
        Ok(Order {
            spaces: List::from_vec(alloc, spaces)?,
        })
    }

    pub fn as_slice(&self) -> &[SpaceId]
        ensures { result.now ≡ self.now }
    {
        self.spaces.as_slice()
    }

    /// The same list, shared.
    pub fn copy(&self) -> Result<Order, AllocError>
        ensures { IfOk result (λ it. it ≡ self.now) }
    {
        Ok(Order {
            spaces: self.spaces.copy()?,
        })
    }
}

/// The bases of each space, by the space's place.
#[derive(Drop)]
pub struct BaseLists {
    lists: Vec<Order>,
}

impl Model for BaseLists {
    ghost use Rattle.std.specs.Coded.{coded_list};
    ghost use Rattle.std.specs.Prelude.{List as Many};
    ghost use Rattle.mx_c3.specs.declared.space.SpaceId.{SpaceId};
    ghost use Rattle.mx_c3.specs.contracts.space.SpaceId as space;

    ghost Value = { Many (Many SpaceId) };

    ghost coded = { coded_list (coded_list space.the_row.coded) };

    ghost view = { λ bases. bases.lists.items };
}

impl BaseLists {
    pub fn new(alloc: Global) -> BaseLists
        ensures { result ≡ [] }
    {
        BaseLists {
            lists: Vec::new(alloc),
        }
    }

    pub fn len(&self) -> usize
        ensures { result ≡ length self.now }
    {
        self.lists.len()
    }

    pub fn is_empty(&self) -> bool
        ensures { IsTrue result ↔ (self.now ≡ []) }
    {
        self.lists.is_empty()
    }

    /// Adds a space with these bases behind the others.
    pub fn push(&mut self, bases: Order) -> Result<(), AllocError>
        ensures ok { OnOk result (self.new ≡ self.old ++ bases ∷ []) }
        ensures err { OnErr result (self.new ≡ self.old) }
    {
        self.lists.push(bases)?;
        Ok(())
    }

    /// Puts these bases in the place of the space's old ones.
    pub fn set(&mut self, space: SpaceId, bases: Order)
        requires { space.0 < length self.old }
        ensures { self.new ≡ slice_set self.old space.0 bases }
    {
        self.lists[space.0 as usize] = bases;
    }

    /// Whether each base stands before its space and no list has one twice: such lists can be linearised.
    pub fn is_in_order(&self) -> bool
        ensures { IsTrue result ↔ IsInOrder 0 self.now }
    {
        for (place, bases) in self.lists.iter().enumerate() {
            if !are_below(bases.as_slice(), place) {
                return false;
            }
            if !are_distinct(bases.as_slice()) {
                return false;
            }
        }
        true
    }

    pub fn bases(&self, space: SpaceId) -> &Order
        requires { space.0 < length self.now }
        ensures { slice_get self.now space.0 ≡ Some result.now }
    {
        &self.lists[space.0 as usize]
    }
}

fn are_below(spaces: &[SpaceId], bound: usize) -> bool
    ensures { IsTrue result ↔ AllBelow bound spaces.now }
{
    for space in spaces {
        if space.0 as usize >= bound {
            return false;
        }
    }
    true
}

fn are_distinct(spaces: &[SpaceId]) -> bool
    ensures { IsTrue result ↔ Distinct spaces.now }
{
    for (place, space) in spaces.iter().enumerate() {
        if spaces[..place].contains(space) {
            return false;
        }
    }
    true
}
