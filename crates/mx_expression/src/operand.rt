//! Operands. The rules take the parser of an `or` inside brackets as a parameter, so that each is proved by itself.

ghost use Rattle.std.specs.Prelude.{◌≡◌};
ghost use Rattle.mx_grammar.specs.Reading.{Reads, listed, some_listed, sees};
ghost use Rattle.mx_grammar.specs.Nests.{Nests};
ghost use Rattle.mx_expression.specs.OperandParsers as spec;
ghost use Rattle.mx_expression.specs.ExpressionParsers.{ors, expression};

use crate::reading::followed;
use crate::tree;
use mx_grammar::cursor::Cursor;
use mx_grammar::trouble::Trouble;
use mx_grammar::word::Symbol;
use mx_list::items::Items;
use mx_list::list::List;
use mx_syntax::expr::{Expr, PowerPart, Sign};
use std::alloc::Global;

fn sees_sign(tokens: &Cursor<'_>) -> bool
    ensures { result ≡ sees spec.is_sign tokens.now }
{
    tokens.sees(Symbol::Plus) || tokens.sees(Symbol::Minus)
}

#[tactic(auto, unfolding(crate::specs::OperandParsers::one_sign))]
fn sign(tokens: &mut Cursor<'_>) -> Result<Sign, Trouble>
    ensures { Reads (spec.one_sign tokens.old) result tokens.new }
{
    if tokens.sees(Symbol::Plus) {
        tokens.expect(Symbol::Plus)?;
        return Ok(Sign::Plus);
    }
    tokens.expect(Symbol::Minus)?;
    Ok(Sign::Minus)
}

fn signs(alloc: Global, tokens: &mut Cursor<'_>) -> Result<Items<Sign>, Trouble>
    ensures { Reads (spec.signs tokens.old) result tokens.new }
{
    let mut found = Items::new(alloc);
    while sees_sign(tokens) {
        found.push(sign(tokens)?)?;
    }
    Ok(found)
}

fn sign_list(alloc: Global, tokens: &mut Cursor<'_>) -> Result<List<Sign>, Trouble>
    ensures { Reads (spec.signs tokens.old) result tokens.new }
{
    let signs = signs(alloc, tokens)?;
    Ok(List::from_vec(alloc, signs.into_vec())?)
}

#[derive(Clone, Copy)]
pub struct Operands<F> {
    pub alloc: Global,
    /// How many levels of brackets may still open.
    pub levels: usize,
    /// Parses an `or` inside brackets.
    pub or: F,
}

impl<F: Fn(Global, &mut Cursor<'_>, usize) -> Result<Expr, Trouble>> Operands<F> {
    pub fn inner(&self, tokens: &mut Cursor<'_>) -> Result<Expr, Trouble>
        requires { Nests ors self.now.levels (F.pre self.now.or) (F.post self.now.or) }
        ensures { Reads (ors self.now.levels tokens.old) result tokens.new }
    {
        (self.or)(self.alloc, tokens, self.levels)
    }

    /// What is left of a list up to the symbol that closes it, behind the items found before.
    pub fn listed(
        &self,
        tokens: &mut Cursor<'_>,
        close: Symbol,
        found: Items<Expr>,
    ) -> Result<Items<Expr>, Trouble>
        requires { Nests ors self.now.levels (F.pre self.now.or) (F.post self.now.or) }
        ensures { Reads (listed close
            (expression self.now.levels) found tokens.old) result tokens.new }
    {
        let mut found = found;
        while !tokens.eat(close) {
            found.push(self.inside(tokens)?)?;
            if !tokens.eat(Symbol::Comma) {
                tokens.expect(close)?;
                return Ok(found);
            }
        }
        Ok(found)
    }

    /// At least one item, up to the symbol that closes the list.
    pub fn some_listed(
        &self,
        tokens: &mut Cursor<'_>,
        close: Symbol,
    ) -> Result<Items<Expr>, Trouble>
        requires { Nests ors self.now.levels (F.pre self.now.or) (F.post self.now.or) }
        ensures { Reads (some_listed close
            (expression self.now.levels) tokens.old) result tokens.new }
    {
        let first = self.inside(tokens)?;
        let mut found = Items::new(self.alloc);
        found.push(first)?;
        if tokens.sees(Symbol::Comma) {
            tokens.expect(Symbol::Comma)?;
            return self.listed(tokens, close, found);
        }
        tokens.expect(close)?;
        Ok(found)
    }

    /// What is left of parentheses behind their first expression: a tuple, where a comma follows.
    #[tactic(auto, unfolding(crate::specs::OperandParsers::group_rest))]
    fn group_rest(&self, tokens: &mut Cursor<'_>, first: Expr) -> Result<Expr, Trouble>
        requires { Nests ors self.now.levels (F.pre self.now.or) (F.post self.now.or) }
        ensures { Reads (spec.group_rest
            (expression self.now.levels) first tokens.old) result tokens.new }
    {
        if tokens.sees(Symbol::Comma) {
            let mut items = Items::new(self.alloc);
            items.push(first)?;
            tokens.expect(Symbol::Comma)?;
            let items = self.listed(tokens, Symbol::CloseRound, items)?;
            return Ok(tree::tuple(self.alloc, items)?);
        }
        let (first, ()) = followed(first, tokens.expect(Symbol::CloseRound))?;
        Ok(first)
    }

    #[tactic(auto, unfolding(crate::specs::OperandParsers::group))]
    fn group(&self, tokens: &mut Cursor<'_>) -> Result<Expr, Trouble>
        requires { Nests ors self.now.levels (F.pre self.now.or) (F.post self.now.or) }
        ensures { Reads (spec.group (expression self.now.levels) tokens.old) result tokens.new }
    {
        if tokens.sees(Symbol::CloseRound) {
            tokens.expect(Symbol::CloseRound)?;
            return Ok(tree::tuple(self.alloc, Items::new(self.alloc))?);
        }
        let first = self.inside(tokens)?;
        self.group_rest(tokens, first)
    }

    #[tactic(auto, unfolding(crate::specs::OperandParsers::atom))]
    fn atom(&self, tokens: &mut Cursor<'_>) -> Result<Expr, Trouble>
        requires { Nests ors self.now.levels (F.pre self.now.or) (F.post self.now.or) }
        ensures { Reads (spec.atom (expression self.now.levels) tokens.old) result tokens.new }
    {
        if tokens.sees(Symbol::OpenRound) {
            tokens.expect(Symbol::OpenRound)?;
            return self.group(tokens);
        }
        if tokens.sees_name() {
            return Ok(Expr::Name(tokens.name()?));
        }
        Ok(Expr::Lit(tokens.simple_literal()?))
    }

    #[tactic(auto, unfolding(crate::specs::OperandParsers::post))]
    fn post(&self, tokens: &mut Cursor<'_>) -> Result<Expr, Trouble>
        requires { Nests ors self.now.levels (F.pre self.now.or) (F.post self.now.or) }
        ensures { Reads (spec.post self.now.levels (expression self.now.levels)
            (ors self.now.levels) tokens.old) result tokens.new }
    {
        let of = self.atom(tokens)?;
        let (of, trailers) = followed(of, self.trailers(tokens))?;
        Ok(tree::post(self.alloc, of, trailers)?)
    }

    #[tactic(auto, unfolding(crate::specs::OperandParsers::power_part))]
    fn power_part(&self, tokens: &mut Cursor<'_>) -> Result<PowerPart, Trouble>
        requires { Nests ors self.now.levels (F.pre self.now.or) (F.post self.now.or) }
        ensures { Reads (spec.power_part self.now.levels (expression self.now.levels)
            (ors self.now.levels) tokens.old) result tokens.new }
    {
        tokens.expect(Symbol::Power)?;
        let signs = sign_list(self.alloc, tokens)?;
        let of = self.post(tokens)?;
        Ok(PowerPart { signs, of })
    }

    fn power_parts(&self, tokens: &mut Cursor<'_>) -> Result<Items<PowerPart>, Trouble>
        requires { Nests ors self.now.levels (F.pre self.now.or) (F.post self.now.or) }
        ensures { Reads (spec.power_parts self.now.levels (expression self.now.levels)
            (ors self.now.levels) tokens.old) result tokens.new }
    {
        let mut found = Items::new(self.alloc);
        while tokens.sees(Symbol::Power) {
            found.push(self.power_part(tokens)?)?;
        }
        Ok(found)
    }

    #[tactic(auto, unfolding(crate::specs::OperandParsers::power))]
    fn power(&self, tokens: &mut Cursor<'_>) -> Result<Expr, Trouble>
        requires { Nests ors self.now.levels (F.pre self.now.or) (F.post self.now.or) }
        ensures { Reads (spec.power self.now.levels (expression self.now.levels)
            (ors self.now.levels) tokens.old) result tokens.new }
    {
        let first = self.post(tokens)?;
        let (first, rest) = followed(first, self.power_parts(tokens))?;
        Ok(tree::power(self.alloc, first, rest)?)
    }

    /// A part of a product, with the signs before it.
    #[tactic(auto, unfolding(crate::specs::OperandParsers::signed_of))]
    pub fn signed(&self, tokens: &mut Cursor<'_>) -> Result<Expr, Trouble>
        requires { Nests ors self.now.levels (F.pre self.now.or) (F.post self.now.or) }
        ensures { Reads (spec.signed_of self.now.levels (expression self.now.levels)
            (ors self.now.levels) tokens.old) result tokens.new }
    {
        let signs = signs(self.alloc, tokens)?;
        let of = self.power(tokens)?;
        Ok(tree::signed(self.alloc, signs, of)?)
    }
}
