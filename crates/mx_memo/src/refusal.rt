//! Why a node is not held.
ghost use Rattle.std.specs.Prelude.{◌≡◌};
ghost use Rattle.mx_memo.specs.declared.refusal.HoldRefusal.TheVariants.{NoMemory as Want};

use mx_graph::NoMemory;

/// Why a node is not held.
#[derive(Clone, Copy, PartialEq, Eq, Debug, Drop)]
pub enum HoldRefusal {
    /// As many nodes are held as may be.
    Full,
    /// There is no memory for it.
    NoMemory,
}

impl From<NoMemory> for HoldRefusal {
    ghost from_gives = { λ _ refusal. refusal ≡ Want };

    fn from(_: NoMemory) -> HoldRefusal {
        HoldRefusal::NoMemory
    }
}
