//! Names and marks: what they are, and how many bytes they take.

ghost use Rattle.std.specs.Prelude.{◌≡◌, ◌+◌, ◌<◌, ◌≤◌, length, IfOk};
ghost use Rattle.std.specs.List.{prefix_len};
ghost use Rattle.mx_lex.specs.Bytes as is;
ghost use Rattle.mx_lex.specs.Spans as spec;

use crate::bytes::{begins_name, continues_name, is_quote};
use crate::{LexRefusal, TokenKind};
use mx_value::name::is_keyword;

/// A token's kind, and how many bytes it takes.
#[derive(Clone, Copy)]
pub struct Span {
    pub kind: TokenKind,
    pub len: usize,
}

const LONG_MARKS: [(u8, u8); 9] = [
    (b'/', b'/'),
    (b'*', b'*'),
    (b'=', b'='),
    (b'!', b'='),
    (b'<', b'='),
    (b'>', b'='),
    (b'+', b'='),
    (b'-', b'='),
    (b'*', b'='),
];

const SHORT_MARKS: [u8; 17] = *b"+-*/%()[]{},:.=<>";

fn name_len(rest: &[u8]) -> usize
    ensures value { result ≡ prefix_len is.continues_name rest.now }
    ensures within { result ≤ length rest.now }
{
    rest.iter().take_while(|b| continues_name(**b)).count()
}

#[inline(always)]
#[tactic(auto, unfolding(crate::specs::Spans::name_at))]
pub fn name(rest: &[u8]) -> Span
    ensures { spec.name_at rest.now ≡ spec.found result.kind result.len }
{
    let len = name_len(rest);
    let (word, _) = rest.split_at(len);
    let kind = if is_keyword(word) {
        TokenKind::Keyword
    } else {
        TokenKind::Name
    };
    Span { kind, len }
}

#[inline(always)]
#[tactic(auto, unfolding(crate::specs::Spans::mark_at))]
pub fn mark(rest: &[u8], at: u32) -> Result<Span, LexRefusal>
    ensures { result ≡ spec.mark_at at rest.now }
{
    if let [first, second, ..] = rest
        && LONG_MARKS.contains(&(*first, *second))
    {
        return Ok(Span {
            kind: TokenKind::Mark,
            len: 2,
        });
    }
    if let [first, ..] = rest
        && SHORT_MARKS.contains(first)
    {
        return Ok(Span {
            kind: TokenKind::Mark,
            len: 1,
        });
    }
    Err(LexRefusal::BadByte(at))
}
