//! The tokens of a source.

ghost use Rattle.std.specs.Prelude.{◌≡◌, ◌≢◌, ◌+◌, ◌≤◌, ◌<◌, ◌==◌, ◌++◌, length, reverse, option_to_list, OnOk, IfOk, IfErr, Ok, Err};
ghost use Rattle.std.specs.List.{prefix_len};
ghost use Rattle.mx_lex.specs.Lines as lines;
ghost use Rattle.mx_lex.specs.Gaps.{is_gap};
ghost use Rattle.mx_lex.specs.Lexing.{dedents_at, closing_at, step_at, tokens_of};
ghost use Rattle.mx_lex.specs.Stacks.{Stacks, Advances};
ghost use Rattle.mx_lex.specs.declared.LexRefusal.{LexRefusal};

use crate::head::{empty_token, head};
use crate::line::{Line, Phase};
use crate::stack::indent;
use crate::{LexRefusal, Token, TokenKind, Tokens};
use mx_list::items::Items;
use std::alloc::Global;

/// The longest source.
pub const MOST_BYTES: usize = 65_536;

/// How many tokens get room at once at most.
const MOST_ROOM: usize = 4096;

/// How many tokens get room at once in a source of so many bytes: most sources give no more.
fn room(bytes: usize) -> usize
    ensures some { 0 < result }
    ensures most { result ≤ 4096 }
{
    (bytes / 2 + 8).min(MOST_ROOM)
}

fn spaces_len(rest: &[u8]) -> usize
    ensures value { result ≡ prefix_len (λ b. b == 32) rest.now }
    ensures within { result ≤ length rest.now }
{
    rest.iter().take_while(|b| **b == b' ').count()
}

/// How many leading spaces a line has, where it begins here.
fn lead(rest: &[u8], line: Line) -> usize
    ensures value { result ≡ lines.lead line rest.now }
    ensures within { result ≤ length rest.now }
{
    match line.phase {
        Phase::Inside => 0,
        Phase::BeforeFirst | Phase::AtStart => spaces_len(rest),
    }
}

fn is_blank(rest: &[u8]) -> bool
    ensures { result ≡ lines.is_blank rest.now }
{
    match rest {
        [] => true,
        [b, ..] => *b == b'\n' || *b == b'#',
    }
}

/// What the indent of a line gives. The bytes are those behind its leading spaces.
#[inline(always)]
fn open_line(
    first: &[u8],
    spaces: u32,
    at: u32,
    line: Line,
    stack: &mut Vec<u32>,
    tokens: &mut Tokens,
) -> Result<(), LexRefusal>
    ensures { Stacks (lines.opened_at at line spaces
        (reverse stack.old.items) first.now) tokens.old result tokens.new stack.new.items }
{
    if is_blank(first) {
        return Ok(());
    }
    indent(stack, tokens, spaces, at, line)
}

fn give(token: Option<Token>, tokens: &mut Tokens) -> Result<(), LexRefusal>
    ensures ok { OnOk result (tokens.new ≡ tokens.old ++ option_to_list token) }
    ensures err { IfErr result (λ e. e ≡ LexRefusal.NoMemory) }
{
    if let Some(token) = token {
        tokens.push(token)?;
    }
    Ok(())
}

/// Whether a space comes next inside a line, where none counts as an indent.
#[inline(always)]
fn is_gap(rest: &[u8], line: Line) -> bool
    ensures { result ≡ is_gap line rest.now }
{
    match rest {
        [] => false,
        [b, ..] => matches!(line.phase, Phase::Inside) && *b == b' ',
    }
}

/// Reads what stands at a place, and answers the bytes that it takes and how the line goes on.
/// The spaces inside a line are frequent, so they are answered first.
#[inline(always)]
#[tactic(auto, unfolding(crate::specs::Lexing::step_at))]
pub fn step(
    rest: &[u8],
    at: u32,
    line: Line,
    stack: &mut Vec<u32>,
    tokens: &mut Tokens,
) -> Result<(usize, Line), LexRefusal>
    requires some { 0 < length rest.now }
    requires place { at + length rest.now ≤ 65536 }
    requires brackets { line.brackets ≤ at }
    requires number { line.number ≤ at + 1 }
    ensures { Advances
        (step_at at
        (record { line = line; stack = reverse stack.old.items }) rest.now) tokens.old result
        tokens.new stack.new.items }
{
    if is_gap(rest, line) {
        return Ok((1, line));
    }
    let spaces = lead(rest, line);
    let (_, first) = rest.split_at(spaces);
    let place = at + spaces as u32;
    open_line(first, spaces as u32, place, line, stack, tokens)?;
    let head = head(first, place, line)?;
    give(head.token, tokens)?;
    Ok((spaces + head.taken, head.next))
}

/// A DEDENT for each level above 0.
fn close_levels(stack: &mut Vec<u32>, at: u32, tokens: &mut Tokens) -> Result<(), LexRefusal>
    ensures ok { OnOk result (tokens.new ≡ tokens.old ++ dedents_at at (reverse stack.old.items)) }
    ensures err { IfErr result (λ e. e ≡ LexRefusal.NoMemory) }
{
    while let Some(level) = stack.pop() {
        if level == 0 {
            break;
        }
        tokens.push(empty_token(TokenKind::Dedent, at))?;
    }
    Ok(())
}

/// What the end of the source gives.
#[tactic(auto, unfolding(crate::specs::Lexing::closing_at))]
fn close(at: u32, line: Line, stack: &mut Vec<u32>, tokens: &mut Tokens) -> Result<(), LexRefusal>
    ensures ok { OnOk result
        (tokens.new
        ≡ tokens.old ++ closing_at at (record { line = line; stack = reverse stack.old.items })) }
    ensures err { IfErr result (λ e. e ≡ LexRefusal.NoMemory) }
{
    if matches!(line.phase, Phase::Inside) {
        tokens.push(empty_token(TokenKind::Newline, at))?;
    }
    close_levels(stack, at, tokens)?;
    tokens.push(empty_token(TokenKind::End, at))?;
    Ok(())
}

/// The tokens of a source of at most 65,536 bytes, or its first trouble from the left; `TooLong` comes before all others.
///
/// Lines, indents and brackets are those of Python's grammar. A line that is not blank ends with NEWLINE, which stands at
/// its comment or at its end, and its indent gives INDENT or DEDENTs, which stand at its first byte that is no space.
/// Inside brackets a line's end is a space. NEWLINE, DEDENTs and END that close the source stand at its end.
#[tactic(auto, unfolding(crate::specs::Lexing::tokens_of, crate::specs::Lexing::beginning))]
pub fn lex(alloc: Global, source: &[u8]) -> Result<Tokens, LexRefusal>
    ensures tokens { IfOk result (λ tokens. tokens_of source.now ≡ Ok tokens) }
    ensures trouble { IfErr result (λ e. e ≢ LexRefusal.NoMemory → tokens_of source.now ≡ Err e) }
{
    if source.len() > MOST_BYTES {
        return Err(LexRefusal::TooLong);
    }
    let mut tokens = Items::with_capacity(alloc, room(source.len()))?;
    let mut stack = Vec::new(alloc);
    stack.push(0)?;
    let mut line = Line {
        number: 1,
        phase: Phase::BeforeFirst,
        brackets: 0,
    };
    let mut at = 0;
    while at < source.len() {
        let (_, rest) = source.split_at(at);
        let (taken, next) = step(rest, at as u32, line, &mut stack, &mut tokens)?;
        at += taken;
        line = next;
    }
    close(at as u32, line, &mut stack, &mut tokens)?;
    Ok(tokens)
}
