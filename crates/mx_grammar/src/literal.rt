//! Literals. The rules take the parser of literals inside brackets as a parameter, so that each is proved by itself.

ghost use Rattle.std.specs.Prelude.{◌≡◌};
ghost use Rattle.mx_grammar.specs.Reading.{Reads, listed, some_listed};
ghost use Rattle.mx_grammar.specs.LiteralParsers as spec;
ghost use Rattle.mx_grammar.specs.Nests.{Nests};

use crate::cursor::Cursor;
use crate::trouble::Trouble;
use crate::word::Symbol;
use mx_list::items::Items;
use mx_value::value::Value;
use std::alloc::Global;

#[derive(Clone, Copy)]
struct Literals<F> {
    alloc: Global,
    /// How many levels of brackets may still open.
    levels: usize,
    literal: F,
}

impl<F: Fn(Global, &mut Cursor<'_>, usize) -> Result<Value, Trouble>> Literals<F> {
    fn inner(&self, tokens: &mut Cursor<'_>) -> Result<Value, Trouble>
        requires { Nests spec.literal self.now.levels (F.pre self.now.literal)
            (F.post self.now.literal) }
        ensures { Reads (spec.literal self.now.levels tokens.old) result tokens.new }
    {
        (self.literal)(self.alloc, tokens, self.levels)
    }

    /// What is left of a list up to the symbol that closes it, behind the items found before.
    fn listed(
        &self,
        tokens: &mut Cursor<'_>,
        close: Symbol,
        found: Items<Value>,
    ) -> Result<Items<Value>, Trouble>
        requires { Nests spec.literal self.now.levels (F.pre self.now.literal)
            (F.post self.now.literal) }
        ensures { Reads (listed close
            (spec.literal self.now.levels) found tokens.old) result tokens.new }
    {
        let mut found = found;
        while !tokens.eat(close) {
            found.push(self.inner(tokens)?)?;
            if !tokens.eat(Symbol::Comma) {
                tokens.expect(close)?;
                return Ok(found);
            }
        }
        Ok(found)
    }

    #[tactic(auto, unfolding(crate::specs::LiteralParsers::tuple_rest))]
    fn tuple_rest(&self, tokens: &mut Cursor<'_>, first: Value) -> Result<Value, Trouble>
        requires { Nests spec.literal self.now.levels (F.pre self.now.literal)
            (F.post self.now.literal) }
        ensures { Reads (spec.tuple_rest
            (spec.literal self.now.levels) first tokens.old) result tokens.new }
    {
        tokens.expect(Symbol::Comma)?;
        let mut items = Items::new(self.alloc);
        items.push(first)?;
        let items = self.listed(tokens, Symbol::CloseRound, items)?;
        Ok(Value::Tup(items))
    }

    #[tactic(auto, unfolding(crate::specs::LiteralParsers::tupled))]
    fn tupled(&self, tokens: &mut Cursor<'_>) -> Result<Value, Trouble>
        requires { Nests spec.literal self.now.levels (F.pre self.now.literal)
            (F.post self.now.literal) }
        ensures { Reads (spec.tupled (spec.literal self.now.levels) tokens.old) result tokens.new }
    {
        if tokens.sees(Symbol::CloseRound) {
            tokens.expect(Symbol::CloseRound)?;
            return Ok(Value::Tup(Items::new(self.alloc)));
        }
        let first = self.inner(tokens)?;
        self.tuple_rest(tokens, first)
    }

    #[tactic(auto, unfolding(crate::specs::LiteralParsers::literal_rule))]
    fn rule(&self, tokens: &mut Cursor<'_>) -> Result<Value, Trouble>
        requires { Nests spec.literal self.now.levels (F.pre self.now.literal)
            (F.post self.now.literal) }
        ensures { Reads (spec.literal_rule
            (spec.literal self.now.levels) tokens.old) result tokens.new }
    {
        if tokens.sees(Symbol::Minus) {
            tokens.expect(Symbol::Minus)?;
            return tokens.negative_number();
        }
        if tokens.sees(Symbol::OpenRound) {
            tokens.expect(Symbol::OpenRound)?;
            return self.tupled(tokens);
        }
        tokens.simple_literal()
    }
}

/// A literal with fewer than `levels` brackets open at once.
#[tactic(auto, unfolding(crate::specs::Reading::levels))]
pub fn literal(alloc: Global, tokens: &mut Cursor<'_>, levels: usize) -> Result<Value, Trouble>
    ensures { Reads (spec.literal levels tokens.old) result tokens.new }
{
    if levels == 0 {
        return Err(Trouble::Unexpected(tokens.left()));
    }
    Literals {
        alloc,
        levels: levels - 1,
        literal,
    }
    .rule(tokens)
}

/// What is left of a list of literals up to the symbol that closes it, behind those found before.
pub fn listed(
    alloc: Global,
    tokens: &mut Cursor<'_>,
    levels: usize,
    close: Symbol,
    found: Items<Value>,
) -> Result<Items<Value>, Trouble>
    ensures { Reads (listed close (spec.literal levels) found tokens.old) result tokens.new }
{
    Literals {
        alloc,
        levels,
        literal,
    }
    .listed(tokens, close, found)
}

/// At least one literal, up to the symbol that closes the list.
pub fn some_listed(
    alloc: Global,
    tokens: &mut Cursor<'_>,
    levels: usize,
    close: Symbol,
) -> Result<Items<Value>, Trouble>
    ensures { Reads (some_listed close (spec.literal levels) tokens.old) result tokens.new }
{
    let first = literal(alloc, tokens, levels)?;
    let mut found = Items::new(alloc);
    found.push(first)?;
    if tokens.sees(Symbol::Comma) {
        tokens.expect(Symbol::Comma)?;
        return listed(alloc, tokens, levels, close, found);
    }
    tokens.expect(close)?;
    Ok(found)
}
