//! The parts of a command that are in small languages of their own.
ghost use Rattle.std.specs.Prelude.{◌≡◌, ◌≢◌, true, false, ◌+◌, ℕ, length, Result, Ok, Err, IfOk, IfErr, List as Many};
ghost use Rattle.mx_lex.specs.declared.LexRefusal.{LexRefusal};
ghost use Rattle.mx_lex.specs.Lexing.{tokens_of};
ghost use Rattle.mx_grammar.specs.Spelling.{words_of, InText, Unread};
ghost use Rattle.mx_grammar.specs.declared.refusal.ParseRefusal.{ParseRefusal};
ghost use Rattle.mx_words.specs.declared.command.FormRefusal.{FormRefusal};
ghost use Rattle.mx_words.specs.Heads.{head_text};
ghost use Rattle.mx_words.specs.Phrases.{phrase_text, address_text};
ghost use Rattle.mx_words.specs.Parts.{IsRead, Unreadable, PartAnswers, Misplaced, moved};

use crate::command::{Command, FormRefusal};
use crate::head::{HeadForm, Target, head_in};
use crate::phrase::{address_in, phrase_in};
use crate::table::Phrase;
use mx_grammar::refusal::ParseRefusal;
use mx_grammar::source::{Source, open, place};
use mx_grammar::trouble::Trouble;
use mx_grammar::words::words;
use mx_lex::{LexRefusal, Token, lex};
use mx_value::value::Addr;
use std::alloc::{AllocError, Global};

/// The place with so many bytes in front of it.
pub fn further(lead: usize, place: u32) -> Result<u32, AllocError>
    ensures { IfOk result (λ p. p ≡ lead + place) }
{
    let Some(place) = lead.checked_add(place as usize) else {
        return Err(AllocError);
    };
    if place > u32::MAX as usize {
        return Err(AllocError);
    }
    Ok(place as u32)
}

/// A lexing trouble of a text with so many bytes in front of it.
fn move_trouble(lead: usize, trouble: LexRefusal) -> Result<LexRefusal, AllocError>
    ensures { IfOk result (λ m. m ≡ moved lead trouble) }
{
    match trouble {
        LexRefusal::BadByte(place) => Ok(LexRefusal::BadByte(further(lead, place)?)),
        LexRefusal::BadNumber(place) => Ok(LexRefusal::BadNumber(further(lead, place)?)),
        LexRefusal::BadText(place) => Ok(LexRefusal::BadText(further(lead, place)?)),
        LexRefusal::BadIndent(line) => Ok(LexRefusal::BadIndent(line)),
        LexRefusal::TooLong => Ok(LexRefusal::TooLong),
        LexRefusal::NoMemory => Ok(LexRefusal::NoMemory),
    }
}

/// The tokens of a head.
fn head_tokens(alloc: Global, head: &[u8]) -> Result<Source, LexRefusal>
    ensures tokens { IfOk result (λ s.
        (tokens_of head.now ≡ Ok s.tokens) × (s.words ≡ words_of head.now s.tokens)) }
    ensures trouble { IfErr result (λ e. e ≢ LexRefusal.NoMemory → tokens_of head.now ≡ Err e) }
{
    let tokens = lex(alloc, head)?;
    let words = words(alloc, head, tokens.as_slice())?;
    Ok(Source { tokens, words })
}

/// The refusal for a lexing trouble in a head.
fn no_tokens(lead: usize, trouble: LexRefusal) -> FormRefusal
    ensures { result ≢ FormRefusal.NoMemory → (trouble ≢ LexRefusal.NoMemory)
        × (result ≡ FormRefusal.Parse (ParseRefusal.Lex (moved lead trouble))) }
{
    match trouble {
        LexRefusal::NoMemory => FormRefusal::NoMemory,
        trouble => match move_trouble(lead, trouble) {
            Ok(trouble) => FormRefusal::Parse(ParseRefusal::Lex(trouble)),
            Err(_) => FormRefusal::NoMemory,
        },
    }
}

/// The tokens of a part of a command, or why they can't be parsed.
fn source_of(alloc: Global, lead: usize, part: &[u8]) -> Result<Source, FormRefusal>
    ensures read { IfOk result (λ s. IsRead false part.now s.tokens s.words) }
    ensures unread { IfErr result (λ e.
        e ≢ FormRefusal.NoMemory → Unreadable false lead part.now e) }
{
    match head_tokens(alloc, part) {
        Ok(source) => Ok(source),
        Err(trouble) => Err(no_tokens(lead, trouble)),
    }
}

/// The refusal for a part whose tokens can't be parsed, where its brackets count.
fn unread(lead: usize, refusal: ParseRefusal) -> FormRefusal
    ensures { (part : Many ℕ) → (refusal ≢ ParseRefusal.NoMemory → Unread part refusal)
        → result ≢ FormRefusal.NoMemory → Unreadable true lead part result }
{
    match refusal {
        ParseRefusal::Lex(trouble) => no_tokens(lead, trouble),
        ParseRefusal::TooNested(place) => match further(lead, place) {
            Ok(place) => FormRefusal::Parse(ParseRefusal::TooNested(place)),
            Err(_) => FormRefusal::NoMemory,
        },
        ParseRefusal::Unexpected(_) => FormRefusal::NoMemory,
        ParseRefusal::TooManyLoops => FormRefusal::NoMemory,
        ParseRefusal::PrintsTooLong => FormRefusal::NoMemory,
        ParseRefusal::NoMemory => FormRefusal::NoMemory,
    }
}

/// The address behind a command's word and a name, or why it is refused.
pub fn address(alloc: Global, name: &[u8], lead: usize, text: &[u8]) -> Result<Addr, FormRefusal>
    ensures { result ≢ Err FormRefusal.NoMemory
        → PartAnswers (address_text name.now) true lead text.now result }
{
    let source = match open(alloc, text) {
        Ok(source) => source,
        Err(refusal) => return Err(unread(lead, refusal)),
    };
    match address_in(alloc, name, source.words.as_slice()) {
        Ok(address) => Ok(address),
        Err(trouble) => Err(misplaced(lead, source.tokens.as_slice(), trouble)),
    }
}

/// The refusal for a token that the form of a head does not allow.
fn misplaced(lead: usize, tokens: &[Token], trouble: Trouble) -> FormRefusal
    requires { InText (length tokens.now) trouble }
    ensures { result ≢ FormRefusal.NoMemory → Misplaced lead tokens.now trouble result }
{
    match trouble {
        Trouble::Unexpected(left) => match further(lead, place(tokens, left)) {
            Ok(place) => FormRefusal::BadForm(place),
            Err(_) => FormRefusal::NoMemory,
        },
        Trouble::NoMemory => FormRefusal::NoMemory,
    }
}

/// What a head in this form names, or why it is refused.
pub fn names_in(
    alloc: Global,
    lead: usize,
    form: HeadForm,
    part: &[u8],
) -> Result<Target, FormRefusal>
    ensures { result ≢ Err FormRefusal.NoMemory
        → PartAnswers (head_text form) false lead part.now result }
{
    let source = match source_of(alloc, lead, part) {
        Ok(source) => source,
        Err(refusal) => return Err(refusal),
    };
    match head_in(alloc, form, source.words.as_slice()) {
        Ok(target) => Ok(target),
        Err(trouble) => Err(misplaced(lead, source.tokens.as_slice(), trouble)),
    }
}

/// What a phrase behind a command's word says, or why it is refused.
pub fn phrase(
    alloc: Global,
    phrase: Phrase,
    lead: usize,
    text: &[u8],
) -> Result<Command, FormRefusal>
    ensures { result ≢ Err FormRefusal.NoMemory
        → PartAnswers (phrase_text phrase) false lead text.now result }
{
    let source = match source_of(alloc, lead, text) {
        Ok(source) => source,
        Err(refusal) => return Err(refusal),
    };
    match phrase_in(alloc, phrase, source.words.as_slice()) {
        Ok(command) => Ok(command),
        Err(trouble) => Err(misplaced(lead, source.tokens.as_slice(), trouble)),
    }
}
