//! A cursor over the tokens of a text.

ghost use Rattle.std.specs.Prelude.{◌≡◌, length, neg_ℤ};
ghost use Rattle.mx_grammar.specs.Words.{is};
ghost use Rattle.mx_grammar.specs.Reading as spec;
ghost use Rattle.mx_grammar.specs.Reading.{Reads};
ghost use Rattle.mx_grammar.specs.LiteralParsers.{simple_of, negative_of};
ghost use Rattle.mx_grammar.specs.AddressParsers.{name_of, is_name};

use crate::trouble::Trouble;
use crate::word::{Symbol, Word};
use mx_value::fixed::Fixed;
use mx_value::label::Label;
use mx_value::value::Value;
use std::marker::Model;

/// The tokens that are left.
#[derive(Drop)]
pub struct Cursor<'a> {
    left: &'a [Word],
}

impl<'a> Model for Cursor<'a> {
    ghost use Rattle.std.specs.Prelude.{List};
    ghost use Rattle.mx_grammar.specs.declared.word.Word.{Word};

    ghost Value = { List Word };

    ghost view = { λ t. t.left.now };
}

impl<'a> Cursor<'a> {
    pub fn new(left: &'a [Word]) -> Cursor<'a>
        ensures { result ≡ left.now }
    {
        Cursor { left }
    }

    pub fn left(&self) -> usize
        ensures { result ≡ length self.now }
    {
        self.left.len()
    }

    pub fn sees(&self, symbol: Symbol) -> bool
        ensures { result ≡ spec.sees (is symbol) self.now }
    {
        match self.left {
            [] => false,
            [token, ..] => token.is(symbol),
        }
    }

    /// Whether the next token is a name.
    pub fn sees_name(&self) -> bool
        ensures { result ≡ spec.sees is_name self.now }
    {
        match self.left {
            [Word::Name(_), ..] => true,
            _ => false,
        }
    }

    fn take(&mut self)
        ensures { self.new ≡ spec.behind self.old }
    {
        if let [_, rest @ ..] = self.left {
            self.left = rest;
        }
    }

    /// Goes behind the symbol where it is the next token.
    pub fn eat(&mut self, symbol: Symbol) -> bool
        ensures found { result ≡ spec.sees (is symbol) self.old }
        ensures behind { self.new ≡ spec.after (is symbol) self.old }
    {
        let found = self.sees(symbol);
        if found {
            self.take();
        }
        found
    }

    pub fn expect(&mut self, symbol: Symbol) -> Result<(), Trouble>
        ensures { Reads (spec.expect symbol self.old) result self.new }
    {
        match self.left {
            [token, rest @ ..] if token.is(symbol) => {
                self.left = rest;
                Ok(())
            }
            left => Err(Trouble::Unexpected(left.len())),
        }
    }

    pub fn name(&mut self) -> Result<Label, Trouble>
        ensures { Reads (spec.accept name_of self.old) result self.new }
    {
        match self.left {
            [Word::Name(name), rest @ ..] => {
                self.left = rest;
                Ok(name.copy()?)
            }
            left => Err(Trouble::Unexpected(left.len())),
        }
    }

    /// A text, without its quotes and escapes.
    pub fn text(&mut self) -> Result<Label, Trouble>
        ensures { Reads (spec.accept spec.text_of self.old) result self.new }
    {
        match self.left {
            [Word::Text(text), rest @ ..] => {
                self.left = rest;
                Ok(text.copy()?)
            }
            left => Err(Trouble::Unexpected(left.len())),
        }
    }

    /// A literal of one token.
    pub fn simple_literal(&mut self) -> Result<Value, Trouble>
        ensures { Reads (spec.accept simple_of self.old) result self.new }
    {
        let [token, rest @ ..] = self.left else {
            return Err(Trouble::Unexpected(0));
        };
        let unexpected = Trouble::Unexpected(self.left.len());
        self.left = rest;
        match token {
            Word::Int(n) => {
                let n = 0i64.checked_add_unsigned(*n).ok_or(unexpected)?;
                Ok(Value::Int(n))
            }
            Word::Fix(x) => Ok(Value::Fix(*x)),
            Word::Text(text) => Ok(Value::Text(text.copy()?)),
            Word::Symbol(Symbol::None) => Ok(Value::Nothing),
            Word::Symbol(Symbol::True) => Ok(Value::Flag(true)),
            Word::Symbol(Symbol::False) => Ok(Value::Flag(false)),
            Word::Symbol(_) | Word::Name(_) => Err(unexpected),
        }
    }

    /// A number behind `-`.
    pub fn negative_number(&mut self) -> Result<Value, Trouble>
        ensures { Reads (spec.accept negative_of self.old) result self.new }
    {
        let [token, rest @ ..] = self.left else {
            return Err(Trouble::Unexpected(0));
        };
        let unexpected = Trouble::Unexpected(self.left.len());
        self.left = rest;
        match token {
            Word::Int(n) => {
                let n = 0i64.checked_sub_unsigned(*n).ok_or(unexpected)?;
                Ok(Value::Int(n))
            }
            Word::Fix(x) => Ok(Value::Fix(negative(*x))),
            Word::Text(_) | Word::Symbol(_) | Word::Name(_) => Err(unexpected),
        }
    }
}

fn negative(x: Fixed) -> Fixed
    ensures { result ≡ neg_ℤ x }
{
    match Fixed::from_raw(-x.raw()) {
        Some(negative) => negative,
        None => unreachable!(),
    }
}
