//! Why a source has no tokens or is no formula, parameter list, expression, literal, address or node.
ghost use Rattle.std.specs.Prelude.{◌≡◌, ◌≢◌, ◌++◌, OnOk, IfOk};
ghost use Rattle.mx_text.specs.Parsing.{lex_refusal_text, parse_refusal_text};

use crate::counted::push_counted;
use mx_grammar::refusal::ParseRefusal;
use mx_lex::LexRefusal;
use mx_print::append::push;
use std::alloc::{AllocError, Global};

/// Adds why a source has no tokens. Want of memory is handed on: it has no text.
pub fn push_lex_refusal(out: &mut Vec<u8>, refusal: LexRefusal) -> Result<(), AllocError>
    ensures text { OnOk result (out.new.items ≡ out.old.items ++ lex_refusal_text refusal) }
    ensures memory { OnOk result (refusal ≢ LexRefusal.NoMemory) }
{
    match refusal {
        LexRefusal::TooLong => push(out, b"too long"),
        LexRefusal::BadByte(place) => push_counted(out, b"bad byte at ", place),
        LexRefusal::BadNumber(place) => push_counted(out, b"bad number at ", place),
        LexRefusal::BadText(place) => push_counted(out, b"bad text at ", place),
        LexRefusal::BadIndent(line) => push_counted(out, b"bad indent at line ", line),
        LexRefusal::NoMemory => Err(AllocError),
    }
}

/// Adds why a source is no formula or node. Want of memory is handed on: it has no text.
pub fn push_parse_refusal(out: &mut Vec<u8>, refusal: ParseRefusal) -> Result<(), AllocError>
    ensures text { OnOk result (out.new.items ≡ out.old.items ++ parse_refusal_text refusal) }
    ensures memory { OnOk result (refusal ≢ ParseRefusal.NoMemory) }
{
    match refusal {
        ParseRefusal::Lex(trouble) => push_lex_refusal(out, trouble),
        ParseRefusal::TooNested(place) => push_counted(out, b"too nested at ", place),
        ParseRefusal::Unexpected(place) => push_counted(out, b"unexpected at ", place),
        ParseRefusal::TooManyLoops => push(out, b"too many loops"),
        ParseRefusal::PrintsTooLong => push(out, b"prints too long"),
        ParseRefusal::NoMemory => Err(AllocError),
    }
}

/// The text of why a source is no formula or node.
pub fn text_of_parse(alloc: Global, refusal: ParseRefusal) -> Result<Vec<u8>, AllocError>
    requires here { refusal ≢ ParseRefusal.NoMemory }
    requires carried { refusal ≢ ParseRefusal.Lex LexRefusal.NoMemory }
    ensures { IfOk result (λ text. text.items ≡ parse_refusal_text refusal) }
{
    let mut text = Vec::new(alloc);
    push_parse_refusal(&mut text, refusal)?;
    Ok(text)
}
