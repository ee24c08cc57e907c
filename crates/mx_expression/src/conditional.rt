//! Conditionals.

ghost use Rattle.std.specs.Prelude.{◌≡◌};
ghost use Rattle.mx_grammar.specs.Reading.{Reads};
ghost use Rattle.mx_grammar.specs.Nests.{Nests};
ghost use Rattle.mx_expression.specs.ChainParsers as spec;
ghost use Rattle.mx_expression.specs.ExpressionParsers.{ors, expression};

use crate::chain_tree;
use crate::operand::Operands;
use crate::reading::followed;
use mx_grammar::cursor::Cursor;
use mx_grammar::trouble::Trouble;
use mx_grammar::word::Symbol;
use mx_list::items::Items;
use mx_syntax::expr::{Arm, Expr};
use std::alloc::Global;

impl<F: Fn(Global, &mut Cursor<'_>, usize) -> Result<Expr, Trouble>> Operands<F> {
    /// What stands behind a word.
    fn behind(&self, tokens: &mut Cursor<'_>, word: Symbol) -> Result<Expr, Trouble>
        requires { Nests ors self.now.levels (F.pre self.now.or) (F.post self.now.or) }
        ensures { Reads (spec.behind word (ors self.now.levels) tokens.old) result tokens.new }
    {
        tokens.expect(word)?;
        self.inner(tokens)
    }

    /// A test, and the value behind it.
    #[tactic(auto, unfolding(crate::specs::ChainParsers::choice))]
    fn choice(&self, tokens: &mut Cursor<'_>) -> Result<(Expr, Expr), Trouble>
        requires { Nests ors self.now.levels (F.pre self.now.or) (F.post self.now.or) }
        ensures { Reads (spec.choice (ors self.now.levels) tokens.old) result tokens.new }
    {
        let test = self.behind(tokens, Symbol::If)?;
        followed(test, self.behind(tokens, Symbol::Else))
    }

    /// An expression inside brackets.
    pub fn inside(&self, tokens: &mut Cursor<'_>) -> Result<Expr, Trouble>
        requires { Nests ors self.now.levels (F.pre self.now.or) (F.post self.now.or) }
        ensures { Reads (expression self.now.levels tokens.old) result tokens.new }
    {
        let mut last = self.inner(tokens)?;
        let mut arms = Items::new(self.alloc);
        while tokens.sees(Symbol::If) {
            let (test, value) = self.choice(tokens)?;
            arms.push(Arm { value: last, test })?;
            last = value;
        }
        Ok(chain_tree::conditional(self.alloc, arms, last)?)
    }
}
