//! The defined children of one space.
ghost use Rattle.std.specs.Prelude.{◌≡◌, Some, None, MatchOption};
ghost use Rattle.mx_paths.specs.Siblings.{first, others, first_named, without_first};

use crate::child::Child;
use mx_c3::space::SpaceId;
use mx_value::label::Label;
use std::marker::Model;

/// Children from one on, in the order of their names.
#[derive(Drop)]
pub struct Family<'a> {
    children: &'a [Child],
}

impl<'a> Model for Family<'a> {
    ghost use Rattle.std.specs.Prelude.{List as Many};
    ghost use Rattle.mx_paths.specs.declared.child.Child.{Child};

    ghost Value = { Many Child };

    ghost view = { λ f. f.children.now };
}

impl<'a> Family<'a> {
    /// All these children.
    pub fn new(children: &'a [Child]) -> Family<'a>
        ensures { result ≡ children.now }
    {
        Family { children }
    }

    pub fn first(&self) -> Option<&'a Child>
        ensures { MatchOption result (first self.now ≡ None)
            (λ child. first self.now ≡ Some child.now) }
    {
        self.children.first()
    }

    /// Goes on to the next child.
    fn step(&mut self)
        ensures { self.new ≡ others self.old }
    {
        if let [_, others @ ..] = self.children {
            self.children = others;
        }
    }

    /// Takes the first child, where it has this name.
    pub fn take(&mut self, name: &Label) -> Option<SpaceId>
        ensures child { result ≡ first_named name.now self.old }
        ensures rest { self.new ≡ without_first name.now self.old }
    {
        let Some(child) = self.first() else {
            return None;
        };
        if *name != child.name {
            return None;
        }
        let space = child.space;
        self.step();
        Some(space)
    }
}
