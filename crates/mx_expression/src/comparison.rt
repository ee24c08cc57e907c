//! Comparisons.

ghost use Rattle.std.specs.Prelude.{◌≡◌};
ghost use Rattle.mx_grammar.specs.Reading.{Reads, sees};
ghost use Rattle.mx_grammar.specs.Nests.{Nests};
ghost use Rattle.mx_expression.specs.ChainParsers as spec;
ghost use Rattle.mx_expression.specs.ExpressionParsers.{ors, sums, compares};

use crate::chain_tree;
use crate::operand::Operands;
use crate::reading::followed;
use mx_grammar::cursor::Cursor;
use mx_grammar::trouble::Trouble;
use mx_grammar::word::Symbol;
use mx_list::items::Items;
use mx_syntax::expr::{CmpOp, Comparison, Expr};
use std::alloc::Global;

fn sees_order(tokens: &Cursor<'_>) -> bool
    ensures { result ≡ sees spec.is_order tokens.now }
{
    tokens.sees(Symbol::Lt)
        || tokens.sees(Symbol::Le)
        || tokens.sees(Symbol::Gt)
        || tokens.sees(Symbol::Ge)
}

fn sees_equality(tokens: &Cursor<'_>) -> bool
    ensures { result ≡ sees spec.is_equality tokens.now }
{
    tokens.sees(Symbol::Eq) || tokens.sees(Symbol::Ne)
}

fn sees_word(tokens: &Cursor<'_>) -> bool
    ensures { result ≡ sees spec.is_word tokens.now }
{
    tokens.sees(Symbol::In) || tokens.sees(Symbol::Not) || tokens.sees(Symbol::Is)
}

fn sees_compare(tokens: &Cursor<'_>) -> bool
    ensures { result ≡ sees spec.is_compare tokens.now }
{
    sees_order(tokens) || sees_equality(tokens) || sees_word(tokens)
}

#[tactic(auto, unfolding(crate::specs::ChainParsers::compare_op))]
fn compare_op(tokens: &mut Cursor<'_>) -> Result<CmpOp, Trouble>
    ensures { Reads (spec.compare_op tokens.old) result tokens.new }
{
    if tokens.sees(Symbol::Not) {
        tokens.expect(Symbol::Not)?;
        tokens.expect(Symbol::In)?;
        return Ok(CmpOp::NotIn);
    }
    if tokens.sees(Symbol::Lt) {
        tokens.expect(Symbol::Lt)?;
        return Ok(CmpOp::Lt);
    }
    if tokens.sees(Symbol::Le) {
        tokens.expect(Symbol::Le)?;
        return Ok(CmpOp::Le);
    }
    if tokens.sees(Symbol::Gt) {
        tokens.expect(Symbol::Gt)?;
        return Ok(CmpOp::Gt);
    }
    if tokens.sees(Symbol::Ge) {
        tokens.expect(Symbol::Ge)?;
        return Ok(CmpOp::Ge);
    }
    if tokens.sees(Symbol::Eq) {
        tokens.expect(Symbol::Eq)?;
        return Ok(CmpOp::Eq);
    }
    if tokens.sees(Symbol::Ne) {
        tokens.expect(Symbol::Ne)?;
        return Ok(CmpOp::Ne);
    }
    if tokens.sees(Symbol::In) {
        tokens.expect(Symbol::In)?;
        return Ok(CmpOp::In);
    }
    Err(Trouble::Unexpected(tokens.left()))
}

/// `is None` or `is not None`.
#[tactic(auto, unfolding(crate::specs::ChainParsers::none_test))]
fn none_test(tokens: &mut Cursor<'_>) -> Result<Comparison, Trouble>
    ensures { Reads (spec.none_test tokens.old) result tokens.new }
{
    tokens.expect(Symbol::Is)?;
    if tokens.sees(Symbol::Not) {
        tokens.expect(Symbol::Not)?;
        tokens.expect(Symbol::None)?;
        return Ok(Comparison::IsNotNone);
    }
    tokens.expect(Symbol::None)?;
    Ok(Comparison::IsNone)
}

impl<F: Fn(Global, &mut Cursor<'_>, usize) -> Result<Expr, Trouble>> Operands<F> {
    #[tactic(auto, unfolding(crate::specs::ChainParsers::comparison))]
    fn comparison(&self, tokens: &mut Cursor<'_>) -> Result<Comparison, Trouble>
        requires { Nests ors self.now.levels (F.pre self.now.or) (F.post self.now.or) }
        ensures { Reads (spec.comparison (sums self.now.levels) tokens.old) result tokens.new }
    {
        if tokens.sees(Symbol::Is) {
            return none_test(tokens);
        }
        let op = compare_op(tokens)?;
        let of = self.sum(tokens)?;
        Ok(Comparison::Op(op, of))
    }

    fn comparisons(&self, tokens: &mut Cursor<'_>) -> Result<Items<Comparison>, Trouble>
        requires { Nests ors self.now.levels (F.pre self.now.or) (F.post self.now.or) }
        ensures { Reads (spec.comparisons (sums self.now.levels) tokens.old) result tokens.new }
    {
        let mut found = Items::new(self.alloc);
        while sees_compare(tokens) {
            found.push(self.comparison(tokens)?)?;
        }
        Ok(found)
    }

    #[tactic(auto, unfolding(crate::specs::ChainParsers::compare))]
    pub fn compare(&self, tokens: &mut Cursor<'_>) -> Result<Expr, Trouble>
        requires { Nests ors self.now.levels (F.pre self.now.or) (F.post self.now.or) }
        ensures { Reads (compares self.now.levels tokens.old) result tokens.new }
    {
        let first = self.sum(tokens)?;
        let (first, rest) = followed(first, self.comparisons(tokens))?;
        Ok(chain_tree::compare(self.alloc, first, rest)?)
    }
}
