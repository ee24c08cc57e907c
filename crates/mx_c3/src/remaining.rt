//! What a merge has not taken yet.
ghost use Rattle.std.specs.Prelude.{◌≡◌};
ghost use Rattle.mx_c3.specs.Merge.{head, tail};

use crate::space::SpaceId;
use std::marker::Model;

/// A list from its head on.
#[derive(Drop)]
pub struct Remaining<'a> {
    spaces: &'a [SpaceId],
}

impl<'a> Model for Remaining<'a> {
    ghost use Rattle.std.specs.Coded.{coded_list};
    ghost use Rattle.std.specs.Prelude.{List as Many};
    ghost use Rattle.mx_c3.specs.declared.space.SpaceId.{SpaceId};
    ghost use Rattle.mx_c3.specs.contracts.space.SpaceId as space;

    ghost Value = { Many SpaceId };

    ghost coded = { coded_list space.the_row.coded };

    ghost view = { λ r. r.spaces.now };
}

impl<'a> Remaining<'a> {
    pub fn new(spaces: &'a [SpaceId]) -> Remaining<'a>
        ensures { result ≡ spaces.now }
    {
        Remaining { spaces }
    }

    pub fn as_slice(&self) -> &[SpaceId]
        ensures { result.now ≡ self.now }
    {
        self.spaces
    }

    pub fn head(&self) -> Option<SpaceId>
        ensures { result ≡ head self.now }
    {
        self.spaces.first().copied()
    }

    /// Goes on to the next head.
    pub fn step(&mut self)
        ensures { self.new ≡ tail self.old }
    {
        if let [_, rest @ ..] = self.spaces {
            self.spaces = rest;
        }
    }
}
