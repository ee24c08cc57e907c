//! Calls, subscripts and attributes.

ghost use Rattle.std.specs.Prelude.{◌≡◌};
ghost use Rattle.mx_grammar.specs.Reading.{Reads, sees};
ghost use Rattle.mx_grammar.specs.Nests.{Nests};
ghost use Rattle.mx_expression.specs.OperandParsers as spec;
ghost use Rattle.mx_expression.specs.ExpressionParsers.{ors, expression};

use crate::operand::Operands;
use crate::reading::followed;
use crate::tree;
use crate::tree::Source;
use mx_grammar::cursor::Cursor;
use mx_grammar::trouble::Trouble;
use mx_grammar::word::Symbol;
use mx_list::items::Items;
use mx_list::shared::Shared;
use mx_syntax::expr::{Args, Expr, Trailer};
use std::alloc::Global;

fn sees_trailer(tokens: &Cursor<'_>) -> bool
    ensures { result ≡ sees spec.begins_trailer tokens.now }
{
    tokens.sees(Symbol::OpenRound) || tokens.sees(Symbol::OpenSquare) || tokens.sees(Symbol::Dot)
}

impl<F: Fn(Global, &mut Cursor<'_>, usize) -> Result<Expr, Trouble>> Operands<F> {
    fn shared_inner(&self, tokens: &mut Cursor<'_>) -> Result<Shared<Expr>, Trouble>
        requires { Nests ors self.now.levels (F.pre self.now.or) (F.post self.now.or) }
        ensures { Reads (ors self.now.levels tokens.old) result tokens.new }
    {
        let inner = self.inner(tokens)?;
        Ok(Shared::new(self.alloc, inner)?)
    }

    #[tactic(auto, unfolding(crate::specs::OperandParsers::test_of))]
    fn test(&self, tokens: &mut Cursor<'_>) -> Result<Option<Shared<Expr>>, Trouble>
        requires { Nests ors self.now.levels (F.pre self.now.or) (F.post self.now.or) }
        ensures { Reads (spec.test_of (ors self.now.levels) tokens.old) result tokens.new }
    {
        if tokens.sees(Symbol::If) {
            tokens.expect(Symbol::If)?;
            return Ok(Some(self.shared_inner(tokens)?));
        }
        Ok(None)
    }

    /// What a generator goes over, behind its element.
    #[tactic(auto, unfolding(crate::specs::OperandParsers::source))]
    fn source(&self, tokens: &mut Cursor<'_>) -> Result<Source, Trouble>
        requires { Nests ors self.now.levels (F.pre self.now.or) (F.post self.now.or) }
        ensures { Reads (spec.source (ors self.now.levels) tokens.old) result tokens.new }
    {
        tokens.expect(Symbol::For)?;
        let name = tokens.name()?;
        tokens.expect(Symbol::In)?;
        let over = self.shared_inner(tokens)?;
        let test = self.test(tokens)?;
        Ok(Source { name, over, test })
    }

    /// A generator behind its element.
    #[tactic(auto, unfolding(crate::specs::OperandParsers::generator))]
    fn generator(&self, tokens: &mut Cursor<'_>, element: Expr) -> Result<Args, Trouble>
        requires { Nests ors self.now.levels (F.pre self.now.or) (F.post self.now.or) }
        ensures { Reads (spec.generator
            (ors self.now.levels) element tokens.old) result tokens.new }
    {
        let element = Shared::new(self.alloc, element)?;
        let Source { name, over, test } = self.source(tokens)?;
        Ok(Args::Gen {
            element,
            name,
            over,
            test,
        })
    }

    /// The arguments of a call behind the first expression.
    #[tactic(auto, unfolding(crate::specs::OperandParsers::arguments_rest))]
    fn arguments_rest(&self, tokens: &mut Cursor<'_>, first: Expr) -> Result<Args, Trouble>
        requires { Nests ors self.now.levels (F.pre self.now.or) (F.post self.now.or) }
        ensures { Reads (spec.arguments_rest (expression self.now.levels)
            (ors self.now.levels) first tokens.old) result tokens.new }
    {
        if tokens.sees(Symbol::For) {
            let generator = self.generator(tokens, first)?;
            let (generator, ()) = followed(generator, tokens.expect(Symbol::CloseRound))?;
            return Ok(generator);
        }
        let mut items = Items::new(self.alloc);
        items.push(first)?;
        if tokens.sees(Symbol::Comma) {
            tokens.expect(Symbol::Comma)?;
            let items = self.listed(tokens, Symbol::CloseRound, items)?;
            return Ok(tree::list(self.alloc, items)?);
        }
        tokens.expect(Symbol::CloseRound)?;
        Ok(tree::list(self.alloc, items)?)
    }

    #[tactic(auto, unfolding(crate::specs::OperandParsers::arguments))]
    fn arguments(&self, tokens: &mut Cursor<'_>) -> Result<Args, Trouble>
        requires { Nests ors self.now.levels (F.pre self.now.or) (F.post self.now.or) }
        ensures { Reads (spec.arguments (expression self.now.levels)
            (ors self.now.levels) tokens.old) result tokens.new }
    {
        if tokens.sees(Symbol::CloseRound) {
            tokens.expect(Symbol::CloseRound)?;
            return Ok(tree::list(self.alloc, Items::new(self.alloc))?);
        }
        let first = self.inside(tokens)?;
        self.arguments_rest(tokens, first)
    }

    #[tactic(auto, unfolding(crate::specs::OperandParsers::subscripts))]
    fn subscripts(&self, tokens: &mut Cursor<'_>) -> Result<Trailer, Trouble>
        requires { Nests ors self.now.levels (F.pre self.now.or) (F.post self.now.or) }
        ensures { Reads (spec.subscripts self.now.levels
            (expression self.now.levels) tokens.old) result tokens.new }
    {
        if self.levels == 0 {
            return Err(Trouble::Unexpected(tokens.left()));
        }
        tokens.expect(Symbol::OpenSquare)?;
        let subscripts = self.some_listed(tokens, Symbol::CloseSquare)?;
        Ok(tree::index(self.alloc, subscripts)?)
    }

    #[tactic(auto, unfolding(crate::specs::OperandParsers::trailer))]
    fn trailer(&self, tokens: &mut Cursor<'_>) -> Result<Trailer, Trouble>
        requires { Nests ors self.now.levels (F.pre self.now.or) (F.post self.now.or) }
        ensures { Reads (spec.trailer self.now.levels (expression self.now.levels)
            (ors self.now.levels) tokens.old) result tokens.new }
    {
        if tokens.sees(Symbol::OpenRound) {
            tokens.expect(Symbol::OpenRound)?;
            return Ok(Trailer::Call(self.arguments(tokens)?));
        }
        if tokens.sees(Symbol::OpenSquare) {
            return self.subscripts(tokens);
        }
        tokens.expect(Symbol::Dot)?;
        Ok(Trailer::Attr(tokens.name()?))
    }

    pub fn trailers(&self, tokens: &mut Cursor<'_>) -> Result<Items<Trailer>, Trouble>
        requires { Nests ors self.now.levels (F.pre self.now.or) (F.post self.now.or) }
        ensures { Reads (spec.trailers self.now.levels (expression self.now.levels)
            (ors self.now.levels) tokens.old) result tokens.new }
    {
        let mut found = Items::new(self.alloc);
        while sees_trailer(tokens) {
            found.push(self.trailer(tokens)?)?;
        }
        Ok(found)
    }
}
