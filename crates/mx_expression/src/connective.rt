//! `not`, `and` and `or`.

ghost use Rattle.std.specs.Prelude.{◌≡◌};
ghost use Rattle.mx_grammar.specs.Reading.{Reads};
ghost use Rattle.mx_grammar.specs.Nests.{Nests};
ghost use Rattle.mx_expression.specs.ChainParsers as spec;
ghost use Rattle.mx_expression.specs.ExpressionParsers.{ors, compares, negations, conjunctions, disjunctions};

use crate::chain_tree;
use crate::operand::Operands;
use crate::reading::followed;
use mx_grammar::cursor::Cursor;
use mx_grammar::trouble::Trouble;
use mx_grammar::word::Symbol;
use mx_list::items::Items;
use mx_syntax::expr::Expr;
use std::alloc::Global;

/// How many `not` stand next to one another. No tree has room for more than fit.
fn nots(tokens: &mut Cursor<'_>) -> Result<u32, Trouble>
    ensures { Reads (spec.nots tokens.old) result tokens.new }
{
    let mut count = 0u32;
    while tokens.sees(Symbol::Not) {
        tokens.expect(Symbol::Not)?;
        let Some(more) = count.checked_add(1) else {
            return Err(Trouble::NoMemory);
        };
        count = more;
    }
    Ok(count)
}

impl<F: Fn(Global, &mut Cursor<'_>, usize) -> Result<Expr, Trouble>> Operands<F> {
    #[tactic(auto, unfolding(crate::specs::ChainParsers::negated))]
    fn negated(&self, tokens: &mut Cursor<'_>) -> Result<Expr, Trouble>
        requires { Nests ors self.now.levels (F.pre self.now.or) (F.post self.now.or) }
        ensures { Reads (negations self.now.levels tokens.old) result tokens.new }
    {
        let count = nots(tokens)?;
        let of = self.compare(tokens)?;
        Ok(chain_tree::not(self.alloc, count, of)?)
    }

    #[tactic(auto, unfolding(crate::specs::ChainParsers::and_part))]
    fn and_part(&self, tokens: &mut Cursor<'_>) -> Result<Expr, Trouble>
        requires { Nests ors self.now.levels (F.pre self.now.or) (F.post self.now.or) }
        ensures { Reads (spec.and_part (negations self.now.levels) tokens.old) result tokens.new }
    {
        tokens.expect(Symbol::And)?;
        self.negated(tokens)
    }

    fn and_parts(&self, tokens: &mut Cursor<'_>) -> Result<Items<Expr>, Trouble>
        requires { Nests ors self.now.levels (F.pre self.now.or) (F.post self.now.or) }
        ensures { Reads (spec.and_parts (negations self.now.levels) tokens.old) result tokens.new }
    {
        let mut found = Items::new(self.alloc);
        while tokens.sees(Symbol::And) {
            found.push(self.and_part(tokens)?)?;
        }
        Ok(found)
    }

    /// Parts joined by `and`.
    #[tactic(auto, unfolding(crate::specs::ChainParsers::both))]
    fn both(&self, tokens: &mut Cursor<'_>) -> Result<Expr, Trouble>
        requires { Nests ors self.now.levels (F.pre self.now.or) (F.post self.now.or) }
        ensures { Reads (conjunctions self.now.levels tokens.old) result tokens.new }
    {
        let first = self.negated(tokens)?;
        let (first, rest) = followed(first, self.and_parts(tokens))?;
        Ok(chain_tree::and(self.alloc, first, rest)?)
    }

    #[tactic(auto, unfolding(crate::specs::ChainParsers::or_part))]
    fn or_part(&self, tokens: &mut Cursor<'_>) -> Result<Expr, Trouble>
        requires { Nests ors self.now.levels (F.pre self.now.or) (F.post self.now.or) }
        ensures { Reads (spec.or_part (conjunctions self.now.levels) tokens.old) result tokens.new }
    {
        tokens.expect(Symbol::Or)?;
        self.both(tokens)
    }

    fn or_parts(&self, tokens: &mut Cursor<'_>) -> Result<Items<Expr>, Trouble>
        requires { Nests ors self.now.levels (F.pre self.now.or) (F.post self.now.or) }
        ensures { Reads (spec.or_parts
            (conjunctions self.now.levels) tokens.old) result tokens.new }
    {
        let mut found = Items::new(self.alloc);
        while tokens.sees(Symbol::Or) {
            found.push(self.or_part(tokens)?)?;
        }
        Ok(found)
    }

    /// Parts joined by `or`.
    #[tactic(auto, unfolding(crate::specs::ChainParsers::either))]
    pub fn either(&self, tokens: &mut Cursor<'_>) -> Result<Expr, Trouble>
        requires { Nests ors self.now.levels (F.pre self.now.or) (F.post self.now.or) }
        ensures { Reads (disjunctions self.now.levels tokens.old) result tokens.new }
    {
        let first = self.both(tokens)?;
        let (first, rest) = followed(first, self.or_parts(tokens))?;
        Ok(chain_tree::or(self.alloc, first, rest)?)
    }
}
