//! Why tokens spell nothing.

use std::alloc::AllocError;

#[derive(Clone, Copy, Debug)]
pub enum Trouble {
    /// How many tokens there are from the first on that no continuation allows.
    Unexpected(usize),
    NoMemory,
}

impl From<AllocError> for Trouble {
    ghost use Rattle.std.specs.Prelude.{◌≡◌};
    ghost use Rattle.mx_grammar.specs.declared.trouble.Trouble.TheVariants.{NoMemory};

    ghost from_gives = { λ _ e. e ≡ NoMemory };

    fn from(_error: AllocError) -> Trouble {
        Trouble::NoMemory
    }
}
