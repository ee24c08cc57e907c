//! The tokens of a formula's source: names, numbers, texts and marks, and lines and indents as in Python's grammar.
//!
//! Room: language.
#![tactic(auto)]

mod bytes;
mod front;
mod head;
pub mod laws;
mod lexer;
mod line;
mod number;
mod spans;
mod stack;
mod text;

pub use front::front_of;
pub use lexer::lex;
use mx_list::items::Items;
use std::alloc::{AllocError, AllocFailed};

/// What a token is. `Mark` is an operator, a bracket or another sign. `Newline`, `Indent`, `Dedent` and `End` have
/// length 0.
#[derive(Clone, Copy, Debug, PartialEq, Eq)]
pub enum TokenKind {
    Name,
    Keyword,
    Int,
    Fix,
    Text,
    Mark,
    Newline,
    Indent,
    Dedent,
    End,
}

/// A token: its first byte, counted from 0, and how many bytes it has. A text keeps its quotes and escapes.
#[derive(Clone, Copy, Debug, PartialEq, Eq)]
pub struct Token {
    pub kind: TokenKind,
    pub at: u32,
    pub len: u32,
}

/// The tokens of a source, in its order.
pub type Tokens = Items<Token>;

/// Why a source has no tokens. Places are bytes counted from 0.
#[derive(Clone, Copy, Debug, PartialEq, Eq)]
pub enum LexRefusal {
    /// The source has more than 65,536 bytes.
    TooLong,
    /// A byte that is not printable ASCII and no end of a line, or that begins no token.
    BadByte(u32),
    /// A number in a form that is none, or too large; the place of its start.
    BadNumber(u32),
    /// A text that is not closed on its line, or has an unknown escape; the place of its opening quote.
    BadText(u32),
    /// An indent that no open block has, or one before the first line; the line, counted from 1.
    BadIndent(u32),
    NoMemory,
}

impl From<AllocError> for LexRefusal {
    ghost use Rattle.std.specs.Prelude.{◌≡◌};
    ghost use Rattle.mx_lex.specs.declared.LexRefusal.TheVariants.{NoMemory};

    ghost from_gives = { λ _ e. e ≡ NoMemory };

    fn from(_error: AllocError) -> LexRefusal {
        LexRefusal::NoMemory
    }
}

impl<T: Drop> From<AllocFailed<T>> for LexRefusal {
    ghost use Rattle.std.specs.Prelude.{◌≡◌};
    ghost use Rattle.mx_lex.specs.declared.LexRefusal.TheVariants.{NoMemory};

    ghost from_gives = { λ _ e. e ≡ NoMemory };

    fn from(_error: AllocFailed<T>) -> LexRefusal {
        LexRefusal::NoMemory
    }
}
