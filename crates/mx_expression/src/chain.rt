//! Products and sums.

ghost use Rattle.std.specs.Prelude.{◌≡◌};
ghost use Rattle.mx_grammar.specs.Reading.{Reads, sees};
ghost use Rattle.mx_grammar.specs.Nests.{Nests};
ghost use Rattle.mx_expression.specs.ChainParsers as spec;
ghost use Rattle.mx_expression.specs.ExpressionParsers.{ors, signed, products, sums};

use crate::chain_tree;
use crate::operand::Operands;
use crate::reading::followed;
use mx_grammar::cursor::Cursor;
use mx_grammar::trouble::Trouble;
use mx_grammar::word::Symbol;
use mx_list::items::Items;
use mx_syntax::expr::{Expr, ProductOp, ProductPart, SumOp, SumPart};
use std::alloc::Global;

fn sees_product(tokens: &Cursor<'_>) -> bool
    ensures { result ≡ sees spec.is_product tokens.now }
{
    tokens.sees(Symbol::Times)
        || tokens.sees(Symbol::Over)
        || tokens.sees(Symbol::Floor)
        || tokens.sees(Symbol::Rem)
}

#[tactic(auto, unfolding(crate::specs::ChainParsers::product_op))]
fn product_op(tokens: &mut Cursor<'_>) -> Result<ProductOp, Trouble>
    ensures { Reads (spec.product_op tokens.old) result tokens.new }
{
    if tokens.sees(Symbol::Times) {
        tokens.expect(Symbol::Times)?;
        return Ok(ProductOp::Times);
    }
    if tokens.sees(Symbol::Over) {
        tokens.expect(Symbol::Over)?;
        return Ok(ProductOp::Over);
    }
    if tokens.sees(Symbol::Floor) {
        tokens.expect(Symbol::Floor)?;
        return Ok(ProductOp::Floor);
    }
    if tokens.sees(Symbol::Rem) {
        tokens.expect(Symbol::Rem)?;
        return Ok(ProductOp::Rem);
    }
    Err(Trouble::Unexpected(tokens.left()))
}

fn sees_sum(tokens: &Cursor<'_>) -> bool
    ensures { result ≡ sees spec.is_sum tokens.now }
{
    tokens.sees(Symbol::Plus) || tokens.sees(Symbol::Minus)
}

#[tactic(auto, unfolding(crate::specs::ChainParsers::sum_op))]
fn sum_op(tokens: &mut Cursor<'_>) -> Result<SumOp, Trouble>
    ensures { Reads (spec.sum_op tokens.old) result tokens.new }
{
    if tokens.sees(Symbol::Plus) {
        tokens.expect(Symbol::Plus)?;
        return Ok(SumOp::Plus);
    }
    if tokens.sees(Symbol::Minus) {
        tokens.expect(Symbol::Minus)?;
        return Ok(SumOp::Minus);
    }
    Err(Trouble::Unexpected(tokens.left()))
}

impl<F: Fn(Global, &mut Cursor<'_>, usize) -> Result<Expr, Trouble>> Operands<F> {
    #[tactic(auto, unfolding(crate::specs::ChainParsers::product_part))]
    fn product_part(&self, tokens: &mut Cursor<'_>) -> Result<ProductPart, Trouble>
        requires { Nests ors self.now.levels (F.pre self.now.or) (F.post self.now.or) }
        ensures { Reads (spec.product_part (signed self.now.levels) tokens.old) result tokens.new }
    {
        let op = product_op(tokens)?;
        let of = self.signed(tokens)?;
        Ok(ProductPart { op, of })
    }

    fn product_parts(&self, tokens: &mut Cursor<'_>) -> Result<Items<ProductPart>, Trouble>
        requires { Nests ors self.now.levels (F.pre self.now.or) (F.post self.now.or) }
        ensures { Reads (spec.product_parts (signed self.now.levels) tokens.old) result tokens.new }
    {
        let mut found = Items::new(self.alloc);
        while sees_product(tokens) {
            found.push(self.product_part(tokens)?)?;
        }
        Ok(found)
    }

    #[tactic(auto, unfolding(crate::specs::ChainParsers::product))]
    fn product(&self, tokens: &mut Cursor<'_>) -> Result<Expr, Trouble>
        requires { Nests ors self.now.levels (F.pre self.now.or) (F.post self.now.or) }
        ensures { Reads (products self.now.levels tokens.old) result tokens.new }
    {
        let first = self.signed(tokens)?;
        let (first, rest) = followed(first, self.product_parts(tokens))?;
        Ok(chain_tree::product(self.alloc, first, rest)?)
    }

    #[tactic(auto, unfolding(crate::specs::ChainParsers::sum_part))]
    fn sum_part(&self, tokens: &mut Cursor<'_>) -> Result<SumPart, Trouble>
        requires { Nests ors self.now.levels (F.pre self.now.or) (F.post self.now.or) }
        ensures { Reads (spec.sum_part (products self.now.levels) tokens.old) result tokens.new }
    {
        let op = sum_op(tokens)?;
        let of = self.product(tokens)?;
        Ok(SumPart { op, of })
    }

    fn sum_parts(&self, tokens: &mut Cursor<'_>) -> Result<Items<SumPart>, Trouble>
        requires { Nests ors self.now.levels (F.pre self.now.or) (F.post self.now.or) }
        ensures { Reads (spec.sum_parts (products self.now.levels) tokens.old) result tokens.new }
    {
        let mut found = Items::new(self.alloc);
        while sees_sum(tokens) {
            found.push(self.sum_part(tokens)?)?;
        }
        Ok(found)
    }

    #[tactic(auto, unfolding(crate::specs::ChainParsers::sum))]
    pub fn sum(&self, tokens: &mut Cursor<'_>) -> Result<Expr, Trouble>
        requires { Nests ors self.now.levels (F.pre self.now.or) (F.post self.now.or) }
        ensures { Reads (sums self.now.levels tokens.old) result tokens.new }
    {
        let first = self.product(tokens)?;
        let (first, rest) = followed(first, self.sum_parts(tokens))?;
        Ok(chain_tree::sum(self.alloc, first, rest)?)
    }
}
