//! Blocks and bodies in so many levels.

ghost use Rattle.mx_grammar.specs.Reading.{Reads};
ghost use Rattle.mx_parse.specs.Insides.{block_in, body_in};

use crate::statement::{Inside, Statements};
use mx_grammar::cursor::Cursor;
use mx_grammar::trouble::Trouble;
use mx_list::list::List;
use mx_syntax::stmt::Stmt;
use std::alloc::Global;

/// A block with fewer than `levels` blocks inside of one another.
#[tactic(auto, unfolding(mx_grammar::specs::Reading::levels))]
fn block(
    alloc: Global,
    tokens: &mut Cursor<'_>,
    inside: Inside,
    levels: usize,
) -> Result<List<Stmt>, Trouble>
    ensures { Reads (block_in inside levels tokens.old) result tokens.new }
{
    if levels == 0 {
        return Err(Trouble::Unexpected(tokens.left()));
    }
    Statements {
        alloc,
        inside,
        levels: levels - 1,
        block,
    }
    .rule(tokens)
}

/// A simple statement on the line, or a block.
pub fn body(
    alloc: Global,
    tokens: &mut Cursor<'_>,
    inside: Inside,
    levels: usize,
) -> Result<List<Stmt>, Trouble>
    ensures { Reads (body_in inside levels tokens.old) result tokens.new }
{
    Statements {
        alloc,
        inside,
        levels,
        block,
    }
    .body(tokens)
}
