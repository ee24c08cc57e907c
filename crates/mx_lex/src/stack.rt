//! The stack of indents: what a line's indent gives, and what the end of the source gives.

ghost use Rattle.std.specs.Prelude.{◌≡◌, ◌≢◌, ◌+◌, ◌≤◌, ◌<◌, ◌++◌, ◌∷◌, [], reverse, length, IfOk, IfErr, OnOk, Ok, Err};
ghost use Rattle.mx_lex.specs.Bytes as is;
ghost use Rattle.mx_lex.specs.Lines as spec;
ghost use Rattle.mx_lex.specs.Lexing.{dedents_at};
ghost use Rattle.mx_lex.specs.Stacks.{Stacks, top_of};
ghost use Rattle.mx_lex.specs.declared.LexRefusal.{LexRefusal};

use crate::head::empty_token;
use crate::line::{Line, Phase};
use crate::{LexRefusal, TokenKind, Tokens};
use std::alloc::AllocError;

/// The innermost indent.
fn top(stack: &[u32]) -> Option<u32>
    ensures { result ≡ top_of (reverse stack.now) }
{
    stack.last().copied()
}

/// Pops and gives one DEDENT each down to this indent, which must then be on the top.
fn dedent(
    stack: &mut Vec<u32>,
    tokens: &mut Tokens,
    indent: u32,
    at: u32,
    line: u32,
) -> Result<(), LexRefusal>
    ensures { Stacks (spec.dedented at line indent
        (reverse stack.old.items)) tokens.old result tokens.new stack.new.items }
{
    while let Some(top) = top(stack.as_slice()) {
        if top == indent {
            return Ok(());
        }
        if top < indent {
            return Err(LexRefusal::BadIndent(line));
        }
        let _popped = stack.pop();
        tokens.push(empty_token(TokenKind::Dedent, at))?;
    }
    Err(LexRefusal::BadIndent(line))
}

/// What the indent of a line gives that is not blank.
#[inline(always)]
pub fn indent(
    stack: &mut Vec<u32>,
    tokens: &mut Tokens,
    indent: u32,
    at: u32,
    line: Line,
) -> Result<(), LexRefusal>
    ensures { Stacks (spec.line_indented line.phase at line.number indent
        (reverse stack.old.items)) tokens.old result tokens.new stack.new.items }
{
    match line.phase {
        Phase::Inside => Ok(()),
        Phase::BeforeFirst => {
            if indent > 0 {
                return Err(LexRefusal::BadIndent(line.number));
            }
            Ok(())
        }
        Phase::AtStart => {
            match top(stack.as_slice()) {
                Some(top) if top < indent => {
                    stack.push(indent)?;
                    tokens.push(empty_token(TokenKind::Indent, at))?;
                    Ok(())
                }
                _ => dedent(stack, tokens, indent, at, line.number),
            }
        }
    }
}
