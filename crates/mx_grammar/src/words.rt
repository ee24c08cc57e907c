//! From a source's tokens to tokens with values.

ghost use Rattle.std.specs.Prelude.{◌≡◌, ◌≤◌, ◌^◌, pos, false, length, All, IfOk, IfSome};
ghost use Rattle.std.specs.List.{AllPass, prefix_len};
ghost use Rattle.std.specs.Char.{is_ascii_digit};
ghost use Rattle.mx_lex.specs.Bytes.{is_printable};
ghost use Rattle.mx_lex.specs.Laws.{IsText};
ghost use Rattle.mx_lex.specs.Spans.{digits_from};
ghost use Rattle.mx_grammar.specs.Words as spec;
ghost use Rattle.mx_grammar.specs.Spelling.{words_of};

use crate::symbol::{keyword, mark};
use crate::word::{Symbol, Word};
use mx_lex::{Token, TokenKind};
use mx_list::items::Items;
use mx_value::fixed::Fixed;
use mx_value::label::{Label, LabelRefusal};
use std::alloc::{AllocError, Global};

/// The raw number of 1.0.
const ONE: u64 = 1_000_000_000;

const MOST_DECIMALS: usize = 9;

/// How many words of a source are looked at for a name that was spelled before.
const FIRST_WORDS: usize = 32;

pub fn label(alloc: Global, bytes: &[u8]) -> Result<Label, AllocError>
    requires { AllPass is_printable bytes.now }
    ensures { IfOk result (λ label. label ≡ bytes.now) }
{
    match Label::new(alloc, bytes) {
        Ok(label) => Ok(label),
        Err(LabelRefusal::NoMemory) => Err(AllocError),
        Err(LabelRefusal::NotPrintable(_)) => unreachable!(),
    }
}

fn value(digits: &[u8]) -> u64
    requires digits { AllPass is_ascii_digit digits.now }
    requires bound { digits_from 0 digits.now ≤ 9223372036854775808 }
    ensures { result ≡ digits_from 0 digits.now }
{
    let mut value = 0;
    for b in digits {
        value = value * 10 + u64::from(*b - b'0');
    }
    value
}

fn digits_len(text: &[u8]) -> usize
    ensures value { result ≡ prefix_len is_ascii_digit text.now }
    ensures within { result ≤ length text.now }
{
    text.iter().take_while(|b| b.is_ascii_digit()).count()
}

fn fixed(text: &[u8]) -> Fixed
    requires { spec.IsDecimal text.now }
    ensures { result ≡ pos (spec.fix_of text.now) }
{
    let (whole, rest) = text.split_at(digits_len(text));
    let (_, decimals) = rest.split_at(1);
    let unit = 10u64.pow((MOST_DECIMALS - decimals.len()) as u32);
    let raw = value(whole) * ONE + value(decimals) * unit;
    match Fixed::from_raw(i128::from(raw)) {
        Some(number) => number,
        None => unreachable!(),
    }
}

/// The bytes of a text without its escapes.
fn unescaped(alloc: Global, inner: &[u8]) -> Result<Items<u8>, AllocError>
    ensures { IfOk result (λ bytes. bytes ≡ spec.unescaped false inner.now) }
{
    let mut bytes = Items::new(alloc);
    let mut escaped = false;
    for b in inner {
        if !escaped && *b == b'\\' {
            escaped = true;
        } else {
            bytes.push(*b)?;
            escaped = false;
        }
    }
    Ok(bytes)
}

fn text(alloc: Global, quoted: &[u8]) -> Result<Label, AllocError>
    requires { IsText quoted.now }
    ensures { IfOk result (λ label. label ≡ spec.unescaped false (spec.inner_of quoted.now)) }
{
    let (_, rest) = quoted.split_at(1);
    let (inner, _) = rest.split_at(quoted.len() - 2);
    let bytes = unescaped(alloc, inner)?;
    label(alloc, bytes.as_slice())
}

/// The label of this name, where it is one of the first words before.
fn spelled(before: &[Word], text: &[u8]) -> Option<Label>
    ensures { IfSome result (λ label. label ≡ text.now) }
{
    for word in before.iter().take(FIRST_WORDS) {
        if let Word::Name(label) = word
            && label.as_slice() == text
        {
            return label.copy().ok();
        }
    }
    None
}

/// The label of a name, which shares its bytes with an earlier word where it can.
#[inline(always)]
fn name(alloc: Global, before: &[Word], text: &[u8]) -> Result<Label, AllocError>
    requires { AllPass is_printable text.now }
    ensures { IfOk result (λ label. label ≡ text.now) }
{
    if let Some(label) = spelled(before, text) {
        return Ok(label);
    }
    label(alloc, text)
}

/// The word of a token. The words before it lend their names.
fn word(alloc: Global, source: &[u8], before: &[Word], token: Token) -> Result<Word, AllocError>
    requires { spec.IsReadable source.now token }
    ensures { IfOk result (λ word. word ≡ spec.word_of source.now token) }
{
    let (_, rest) = source.split_at(token.at as usize);
    let (bytes, _) = rest.split_at(token.len as usize);
    match token.kind {
        TokenKind::Name => Ok(Word::Name(name(alloc, before, bytes)?)),
        TokenKind::Keyword => Ok(Word::Symbol(keyword(bytes))),
        TokenKind::Int => Ok(Word::Int(value(bytes))),
        TokenKind::Fix => Ok(Word::Fix(fixed(bytes))),
        TokenKind::Text => Ok(Word::Text(text(alloc, bytes)?)),
        TokenKind::Mark => Ok(Word::Symbol(mark(bytes))),
        TokenKind::Newline => Ok(Word::Symbol(Symbol::Newline)),
        TokenKind::Indent => Ok(Word::Symbol(Symbol::Indent)),
        TokenKind::Dedent => Ok(Word::Symbol(Symbol::Dedent)),
        TokenKind::End => Ok(Word::Symbol(Symbol::End)),
    }
}

pub fn words(alloc: Global, source: &[u8], tokens: &[Token]) -> Result<Items<Word>, AllocError>
    requires { All (λ t. spec.IsReadable source.now t) tokens.now }
    ensures { IfOk result (λ words. words ≡ words_of source.now tokens.now) }
{
    let mut words = Items::with_capacity(alloc, tokens.len())?;
    for token in tokens {
        let word = word(alloc, source, words.as_slice(), *token)?;
        words.push(word)?;
    }
    Ok(words)
}
