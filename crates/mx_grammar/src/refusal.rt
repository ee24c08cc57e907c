//! Why a source is refused.

use mx_lex::LexRefusal;
use std::alloc::AllocError;

/// Why a source is refused. Places are bytes counted from 0. Of several causes the first in this order is given.
#[derive(Clone, Copy, Debug, PartialEq, Eq)]
pub enum ParseRefusal {
    /// The source has no tokens.
    Lex(LexRefusal),
    /// The place of the first token at which more than 64 brackets and indents are open.
    TooNested(u32),
    /// The place of the first token that no continuation allows.
    Unexpected(u32),
    /// More than 8 loops stand in one another.
    TooManyLoops,
    /// The printed text would be longer than a source may be, or more deeply nested.
    PrintsTooLong,
    NoMemory,
}

impl From<AllocError> for ParseRefusal {
    ghost use Rattle.std.specs.Prelude.{◌≡◌};
    ghost use Rattle.mx_grammar.specs.declared.refusal.ParseRefusal.TheVariants.{NoMemory};

    ghost from_gives = { λ _ e. e ≡ NoMemory };

    fn from(_error: AllocError) -> ParseRefusal {
        ParseRefusal::NoMemory
    }
}

impl From<LexRefusal> for ParseRefusal {
    ghost use Rattle.std.specs.Prelude.{◌≡◌};
    ghost use Rattle.mx_grammar.specs.Spelling.{of_lex};

    ghost from_gives = { λ e refusal. refusal ≡ of_lex e };

    fn from(error: LexRefusal) -> ParseRefusal {
        match error {
            LexRefusal::NoMemory => ParseRefusal::NoMemory,
            other => ParseRefusal::Lex(other),
        }
    }
}
