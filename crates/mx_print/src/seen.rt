//! The bytes of a text that goes by. They exist only in proofs.
ghost use Rattle.std.specs.Prelude.{◌≡◌, ℕ, List, [], ◌∷◌, ◌++◌};
ghost use base.Fml.{ftrue};
ghost use Rattle.std.specs.Coded.{coded_list, coded_ℕ};

use std::marker::Model;

/// The bytes that have gone by, of which nothing is kept when the program runs.
#[derive(Drop)]
pub(crate) struct Seen {
    ghost bytes: { List ℕ } by { coded_list coded_ℕ },
}

impl Model for Seen {
    ghost also_owns = { λ _. ftrue };
}

/// One more byte.
#[derive(Clone, Copy, Drop)]
pub(crate) struct Byte {
    pub value: u8,
}

impl Seen {
    pub(crate) fn none() -> Seen
        ensures { result.bytes ≡ [] }
    {
        Seen {}
    }

    #[inline(always)]
    pub(crate) fn then(&self, _byte: &Byte) -> Seen
        ensures { result.bytes ≡ self.now.bytes ++ _byte.now.value ∷ [] }
    {
        Seen {}
    }
}
