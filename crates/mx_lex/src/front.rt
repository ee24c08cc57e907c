//! The front of a source, up to the first token that is one mark.

ghost use Rattle.std.specs.Prelude.{◌≡◌, ◌≢◌, ◌≤◌, length, IfOk, IfErr, Ok, Err};
ghost use Rattle.mx_lex.specs.Fronts as spec;
ghost use Rattle.mx_lex.specs.declared.LexRefusal.{LexRefusal};

use crate::lexer::{MOST_BYTES, step};
use crate::line::{Line, Phase};
use crate::{LexRefusal, Token};
use mx_list::items::Items;
use std::alloc::Global;

/// Whether a token is one byte, which is this one.
fn is_mark(source: &[u8], mark: u8, token: &Token) -> bool
    ensures { result ≡ spec.is_mark source.now mark token.now }
{
    if token.len != 1 {
        return false;
    }
    match source.get(token.at as usize) {
        Some(b) => *b == mark,
        None => false,
    }
}

/// Where the first of these tokens stands that is the mark.
fn place_among(source: &[u8], mark: u8, tokens: &[Token]) -> Option<u32>
    ensures { result ≡ spec.place_among source.now mark tokens.now }
{
    for token in tokens {
        if is_mark(source, mark, token) {
            return Some(token.at);
        }
    }
    None
}

/// How many bytes stand in front of the first token that is this mark of one byte, which are all where none is. Only a trouble
/// in front of it counts: what stands behind it is not read. `TooLong` comes before all others.
#[tactic(auto, unfolding(crate::specs::Fronts::front_of, crate::specs::Lexing::beginning))]
pub fn front_of(alloc: Global, source: &[u8], mark: u8) -> Result<usize, LexRefusal>
    ensures front { IfOk result (λ front. spec.front_of source.now mark ≡ Ok front) }
    ensures trouble { IfErr result
        (λ e. e ≢ LexRefusal.NoMemory → spec.front_of source.now mark ≡ Err e) }
{
    if source.len() > MOST_BYTES {
        return Err(LexRefusal::TooLong);
    }
    let mut given = Items::new(alloc);
    let mut stack = Vec::new(alloc);
    stack.push(0)?;
    let mut line = Line {
        number: 1,
        phase: Phase::BeforeFirst,
        brackets: 0,
    };
    let mut at = 0;
    while at < source.len() {
        let (_, rest) = source.split_at(at);
        given.truncate(0);
        let (taken, next) = step(rest, at as u32, line, &mut stack, &mut given)?;
        if let Some(place) = place_among(source, mark, given.as_slice()) {
            return Ok(place as usize);
        }
        at += taken;
        line = next;
    }
    Ok(at)
}
