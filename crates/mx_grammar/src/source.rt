//! A source whose tokens can be parsed.

ghost use Rattle.std.specs.Prelude.{◌≡◌, ◌≢◌, ◌<◌, ◌≤◌, length, IfOk, IfErr};
ghost use Rattle.mx_grammar.specs.Spelling.{PlaceOf, Unread, IsOpened, InText, Placed};
ghost use Rattle.mx_grammar.specs.declared.refusal.ParseRefusal.{ParseRefusal};

use crate::nesting::too_nested;
use crate::refusal::ParseRefusal;
use crate::trouble::Trouble;
use crate::word::Word;
use crate::words::words;
use mx_lex::{Token, Tokens, lex};
use mx_list::items::Items;
use std::alloc::Global;

/// The tokens of a source, with their places and with their values.
#[derive(Drop)]
pub struct Source {
    pub tokens: Tokens,
    pub words: Items<Word>,
}

/// The place of the token with which the last `left` tokens begin.
pub fn place(tokens: &[Token], left: usize) -> u32
    requires some { 0 < left }
    requires within { left ≤ length tokens.now }
    ensures { PlaceOf tokens.now left result }
{
    tokens[tokens.len() - left].at
}

/// The refusal for a trouble among these tokens.
pub fn refusal(tokens: &[Token], trouble: Trouble) -> ParseRefusal
    requires { InText (length tokens.now) trouble }
    ensures { Placed tokens.now trouble result }
{
    match trouble {
        Trouble::Unexpected(left) => ParseRefusal::Unexpected(place(tokens, left)),
        Trouble::NoMemory => ParseRefusal::NoMemory,
    }
}

pub fn open(alloc: Global, source: &[u8]) -> Result<Source, ParseRefusal>
    ensures opened { IfOk result (λ s. IsOpened source.now s.tokens s.words) }
    ensures unread { IfErr result (λ e. e ≢ ParseRefusal.NoMemory → Unread source.now e) }
{
    let tokens = lex(alloc, source)?;
    let words = words(alloc, source, tokens.as_slice())?;
    if let Some(left) = too_nested(words.as_slice()) {
        return Err(ParseRefusal::TooNested(place(tokens.as_slice(), left)));
    }
    Ok(Source { tokens, words })
}
