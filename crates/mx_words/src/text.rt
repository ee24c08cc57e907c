//! The parts of a command's text.
ghost use Rattle.std.specs.Prelude.{◌≡◌, ◌≤◌, length, IfOk};
ghost use Rattle.mx_lex.specs.Bytes as bytes;
ghost use Rattle.mx_words.specs.Texts as spec;

use mx_lex::{LexRefusal, front_of};
use std::alloc::{AllocError, Global};

/// How many spaces a text begins with.
pub fn spaces(text: &[u8]) -> usize
    ensures count { result ≡ spec.spaces text.now }
    ensures within { result ≤ length text.now }
{
    let mut count = 0;
    for byte in text {
        if *byte != b' ' {
            return count;
        }
        count += 1;
    }
    count
}

/// How many bytes the first word has: it ends at a space or at the line's end.
pub fn word_length(text: &[u8]) -> usize
    ensures count { result ≡ spec.word_length text.now }
    ensures within { result ≤ length text.now }
{
    let mut count = 0;
    for byte in text {
        if *byte == b' ' || *byte == b'\n' {
            return count;
        }
        count += 1;
    }
    count
}

/// How many bytes stand before the first opening parenthesis.
pub fn head_length(text: &[u8]) -> usize
    ensures count { result ≡ spec.head_length text.now }
    ensures within { result ≤ length text.now }
{
    let mut count = 0;
    for byte in text {
        if *byte == b'(' {
            return count;
        }
        count += 1;
    }
    count
}

/// The text behind its leading spaces.
pub fn strip_spaces(text: &[u8]) -> &[u8]
    ensures { result.now ≡ spec.behind_spaces text.now }
{
    let lead = spaces(text);
    &text[lead..]
}

fn continues_name(byte: u8) -> bool
    ensures { result ≡ bytes.continues_name byte }
{
    byte.is_ascii_alphabetic() || byte == b'_' || byte.is_ascii_digit()
}

/// How many bytes of a name a text begins with.
pub fn name_length(text: &[u8]) -> usize
    ensures count { result ≡ spec.name_length text.now }
    ensures within { result ≤ length text.now }
{
    let mut count = 0;
    for byte in text {
        if !(continues_name(*byte)) {
            return count;
        }
        count += 1;
    }
    count
}

/// How many bytes a text has up to its first token `=`, which are all where it has none, or where a trouble stands before it.
pub fn behind_equals(alloc: Global, text: &[u8]) -> Result<usize, AllocError>
    ensures count { IfOk result (λ end. end ≡ spec.behind_equals text.now) }
    ensures within { IfOk result (λ end. end ≤ length text.now) }
{
    match front_of(alloc, text, b'=') {
        Ok(front) if front < text.len() => Ok(front + 1),
        Ok(_) => Ok(text.len()),
        Err(LexRefusal::NoMemory) => Err(AllocError),
        Err(_) => Ok(text.len()),
    }
}
