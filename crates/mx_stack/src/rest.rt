//! What is still to come, of the items of a tuple and of the segments of an address.
ghost use Rattle.std.specs.Prelude.{◌≡◌, ◌∷◌, [], drop, MatchOption};

use mx_list::items::Items;
use mx_value::value::{Addr, Segment, Value};
use std::marker::Model;

/// The items of a tuple that are still to come, which are taken from the first. The last one stands
/// in front, so that none is moved.
#[derive(Drop)]
pub struct Coming {
    items: Vec<Value>,
}

impl Model for Coming {
    ghost use Rattle.std.specs.Prelude.{List, reverse};
    ghost use Rattle.std.specs.Coded.{coded_list};
    ghost use Rattle.mx_value.specs.contracts.value.Value as value;
    ghost use Rattle.mx_value.specs.declared.value.Value.{Value as Values};

    ghost Value = { List Values };

    ghost coded = { coded_list value.the_row.coded };

    ghost view = { λ s. reverse s.items.items };
}

impl Coming {
    /// All items of a tuple, of which none was taken.
    pub fn all(items: Items<Value>) -> Coming
        ensures { result ≡ items }
    {
        let mut items = items.into_vec();
        items.reverse();
        Coming { items }
    }

    /// Takes the next item.
    #[inline(always)]
    pub fn next(&mut self) -> Option<Value>
        ensures { MatchOption result ((self.old ≡ []) × (self.new ≡ []))
            (λ v. self.old ≡ v ∷ self.new) }
    {
        self.items.pop()
    }
}

/// The segments of an address that a walk has still to go, behind so many.
#[derive(Drop)]
pub struct Onward {
    address: Addr,
    passed: usize,
}

impl Model for Onward {
    ghost use Rattle.std.specs.Prelude.{List, drop};
    ghost use Rattle.std.specs.Coded.{coded_list};
    ghost use Rattle.mx_value.specs.contracts.value.Segment as segment;
    ghost use Rattle.mx_value.specs.declared.value.Segment.{Segment as Segments};

    ghost Value = { List Segments };

    ghost coded = { coded_list segment.the_row.coded };

    ghost view = { λ s. drop s.passed s.address };
}

impl Onward {
    /// The segments of an address behind the first ones.
    pub fn behind(address: Addr, passed: usize) -> Onward
        ensures { result ≡ drop passed address }
    {
        Onward { address, passed }
    }

    /// The segments, from the next one.
    pub fn segments(&self) -> &[Segment]
        ensures { result.now ≡ self.now }
    {
        let all = self.address.as_slice();
        if self.passed < all.len() {
            return &all[self.passed..];
        }
        &[]
    }
}
