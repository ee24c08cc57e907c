//! What stands at a place.

ghost use Rattle.std.specs.Prelude.{◌≡◌, ◌+◌, ◌<◌, ◌≤◌, length};
ghost use Rattle.std.specs.List.{prefix_len};
ghost use Rattle.mx_lex.specs.Bytes as is;
ghost use Rattle.mx_lex.specs.Heads as spec;
ghost use Rattle.mx_lex.specs.Spans.{span_at};
ghost use Rattle.std.specs.Char.{is_ascii_digit};

use crate::bytes::{begins_name, is_closing, is_opening, is_quote};
use crate::line::{Head, Line, Phase};
use crate::number::number;
use crate::spans::{Span, mark, name};
use crate::text::text;
use crate::{LexRefusal, Token, TokenKind};
use mx_value::label::is_printable;

pub fn empty_token(kind: TokenKind, at: u32) -> Token
    ensures { result ≡ spec.empty_token kind at }
{
    Token { kind, at, len: 0 }
}

fn ends_line(line: Line) -> bool
    ensures { result ≡ spec.ends_line line }
{
    matches!(line.phase, Phase::Inside) && line.brackets == 0
}

fn newline(at: u32, line: Line) -> Option<Token>
    ensures { result ≡ spec.newline_at at line }
{
    if ends_line(line) {
        Some(empty_token(TokenKind::Newline, at))
    } else {
        None
    }
}

fn ended(line: Line) -> Line
    ensures { result ≡ spec.ended line }
{
    if ends_line(line) {
        Line {
            phase: Phase::AtStart,
            ..line
        }
    } else {
        line
    }
}

#[inline(always)]
fn brackets_behind(b: u8, count: u32) -> u32
    requires { count < 65536 }
    ensures { result ≡ spec.brackets_behind b count }
{
    if is_opening(b) {
        count + 1
    } else if is_closing(b) {
        count.saturating_sub(1)
    } else {
        count
    }
}

fn printable_len(rest: &[u8]) -> usize
    ensures value { result ≡ prefix_len is.is_printable rest.now }
    ensures within { result ≤ length rest.now }
{
    rest.iter().take_while(|b| is_printable(**b)).count()
}

/// A comment, up to its line's end.
#[tactic(auto, unfolding(crate::specs::Heads::comment_at))]
fn comment(rest: &[u8], at: u32, line: Line) -> Result<Head, LexRefusal>
    requires { at + length rest.now ≤ 65536 }
    ensures { result ≡ spec.comment_at at line rest.now }
{
    let len = printable_len(rest);
    let (_, behind) = rest.split_at(len);
    match behind {
        [] | [b'\n', ..] => Ok(Head {
            token: newline(at, line),
            taken: len,
            next: ended(line),
        }),
        [_, ..] => Err(LexRefusal::BadByte(at + len as u32)),
    }
}

fn is_digit_first(rest: &[u8]) -> bool
    ensures { result ≡ is.first_passes is_ascii_digit rest.now }
{
    match rest {
        [] => false,
        [b, ..] => b.is_ascii_digit(),
    }
}

/// The name, number, text or mark at the front of the rest.
#[inline(always)]
#[tactic(auto, unfolding(crate::specs::Spans::span_at))]
fn span(rest: &[u8], at: u32) -> Result<Span, LexRefusal>
    requires { at + length rest.now ≤ 65536 }
    ensures { result ≡ span_at at rest.now }
{
    match rest {
        [b, ..] if begins_name(*b) => Ok(name(rest)),
        [b, ..] if b.is_ascii_digit() => number(rest, at),
        [b'.', behind @ ..] if is_digit_first(behind) => Err(LexRefusal::BadNumber(at)),
        [b, ..] if is_quote(*b) => text(rest, at),
        _ => mark(rest, at),
    }
}

#[inline(always)]
#[tactic(auto, unfolding(crate::specs::Heads::head_at))]
pub fn head(rest: &[u8], at: u32, line: Line) -> Result<Head, LexRefusal>
    requires place { at + length rest.now ≤ 65536 }
    requires brackets { line.brackets < 65536 }
    requires number { line.number < 65537 }
    ensures { result ≡ spec.head_at at line rest.now }
{
    let [first, ..] = rest else {
        return Ok(Head {
            token: None,
            taken: 0,
            next: line,
        });
    };
    match *first {
        b' ' => Ok(Head {
            token: None,
            taken: 1,
            next: line,
        }),
        b'\n' => Ok(Head {
            token: newline(at, line),
            taken: 1,
            next: Line {
                number: line.number + 1,
                ..ended(line)
            },
        }),
        b'#' => comment(rest, at, line),
        b => {
            let span = span(rest, at)?;
            Ok(Head {
                token: Some(Token {
                    kind: span.kind,
                    at,
                    len: span.len as u32,
                }),
                taken: span.len,
                next: Line {
                    number: line.number,
                    phase: Phase::Inside,
                    brackets: brackets_behind(b, line.brackets),
                },
            })
        }
    }
}
