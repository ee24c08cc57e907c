//! Why a text is no command.
ghost use Rattle.std.specs.Prelude.{◌≡◌, ◌≢◌, ◌++◌, IfOk, OnOk};
ghost use Rattle.mx_text.specs.Form.{form_refusal_text, form_block};

use crate::counted::push_counted;
use crate::parsing::push_parse_refusal;
use mx_grammar::refusal::ParseRefusal;
use mx_lex::LexRefusal;
use mx_print::append::{push, push_number};
use mx_words::command::FormRefusal;
use std::alloc::{AllocError, Global};

/// Adds why a text is no command. Want of memory is handed on: it has no text.
pub fn push_form_refusal(out: &mut Vec<u8>, refusal: FormRefusal) -> Result<(), AllocError>
    ensures text { OnOk result (out.new.items ≡ out.old.items ++ form_refusal_text refusal) }
    ensures memory { OnOk result (refusal ≢ FormRefusal.NoMemory) }
{
    match refusal {
        FormRefusal::UnknownWord => push(out, b"unknown word"),
        FormRefusal::BadForm(place) => push_counted(out, b"bad form at ", place),
        FormRefusal::Parse(refusal) => {
            push(out, b"formula: ")?;
            push_parse_refusal(out, refusal)
        }
        FormRefusal::NoMemory => Err(AllocError),
    }
}

/// The text of why a text is no command, which stands behind the number of its line.
pub fn text_of_form(alloc: Global, refusal: FormRefusal) -> Result<Vec<u8>, AllocError>
    requires here { refusal ≢ FormRefusal.NoMemory }
    requires parsing { refusal ≢ FormRefusal.Parse ParseRefusal.NoMemory }
    requires lexing { refusal ≢ FormRefusal.Parse (ParseRefusal.Lex LexRefusal.NoMemory) }
    ensures { IfOk result (λ text. text.items ≡ form_refusal_text refusal) }
{
    let mut text = Vec::new(alloc);
    push_form_refusal(&mut text, refusal)?;
    Ok(text)
}

/// Adds the block of a command that is refused so and begins in this line.
pub fn push_form_block(
    out: &mut Vec<u8>,
    number: u64,
    refusal: FormRefusal,
) -> Result<(), AllocError>
    ensures text { OnOk result (out.new.items ≡ out.old.items ++ form_block number refusal) }
    ensures memory { OnOk result (refusal ≢ FormRefusal.NoMemory) }
{
    push(out, b"line ")?;
    push_number(out, number)?;
    push(out, b": ")?;
    push_form_refusal(out, refusal)?;
    push(out, b"\n")
}
