//! What stands behind the word of a command, where it begins, and the name of a file there.
ghost use Rattle.std.specs.Prelude.{◌≡◌, ◌≢◌, ◌↔◌, ◌+◌, IsTrue, IfOk, Err};
ghost use Rattle.mx_outside.specs.Names.{IsFileName};
ghost use Rattle.mx_words.specs.declared.command.FormRefusal.{FormRefusal};
ghost use Rattle.mx_script.specs.Commands as spec;
ghost use Rattle.mx_script.specs.Commands.{FileAnswers};

use mx_grammar::words::label;
use mx_outside::is_file_name;
use mx_value::label::Label;
use mx_words::command::FormRefusal;
use mx_words::part::further;
use mx_words::scan::strip_end;
use mx_words::text::{strip_spaces, word_length};
use std::alloc::{AllocError, Global};
use std::str;

/// What stands behind a command's word.
pub fn argument(text: &[u8]) -> &[u8]
    ensures { result.now ≡ spec.argument_of text.now }
{
    let end = word_length(text);
    strip_spaces(&text[end..])
}

/// Where a text begins in a command that ends with it and has so many spaces in front.
pub fn start_of(lead: usize, text: &[u8], source: &[u8]) -> Result<usize, AllocError>
    ensures { IfOk result (λ start. start ≡ lead + spec.place_behind text.now source.now) }
{
    let place = text.len().saturating_sub(source.len());
    match lead.checked_add(place) {
        Some(start) => Ok(start),
        None => Err(AllocError),
    }
}

/// Whether bytes are the name of a file.
fn names_file(bytes: &[u8]) -> bool
    ensures { IsTrue result ↔ IsFileName bytes.now }
{
    match str::from_utf8(bytes) {
        Ok(name) => is_file_name(name),
        Err(_) => false,
    }
}

/// The refusal for what is no name of a file and begins at this place.
fn no_file(start: usize) -> FormRefusal
    ensures { result ≢ FormRefusal.NoMemory → result ≡ FormRefusal.BadForm start }
{
    match further(start, 0) {
        Ok(place) => FormRefusal::BadForm(place),
        Err(_) => FormRefusal::NoMemory,
    }
}

/// The name of a file that the rest of a line is, which begins at this place of the command.
pub fn file(alloc: Global, start: usize, source: &[u8]) -> Result<Label, FormRefusal>
    ensures { result ≢ Err FormRefusal.NoMemory → FileAnswers start source.now result }
{
    let name = strip_end(source);
    if !names_file(name) {
        return Err(no_file(start));
    }
    match label(alloc, name) {
        Ok(name) => Ok(name),
        Err(_) => Err(FormRefusal::NoMemory),
    }
}
