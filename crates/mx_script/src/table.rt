//! What a command says that sets a table from a file.
ghost use Rattle.std.specs.Prelude.{◌≡◌, ◌≢◌, Ok, Err};
ghost use Rattle.mx_words.specs.declared.command.FormRefusal.{FormRefusal};
ghost use Rattle.mx_script.specs.Commands as spec;
ghost use Rattle.mx_script.specs.Commands.{TableHead, ReadsTable};

use crate::argument::{argument, file, start_of};
use mx_value::label::Label;
use mx_words::command::{Command, FormRefusal};
use mx_words::head::{HeadForm, Target};
use mx_words::part::names_in;
use mx_words::text::{name_length, strip_spaces};
use std::alloc::Global;

/// What stands behind the name that follows the word.
fn behind_name(text: &[u8]) -> &[u8]
    ensures { result.now ≡ spec.behind_name text.now }
{
    let source = argument(text);
    let name = name_length(source);
    &source[name..]
}

/// The name of a table, with this rest behind it, or why it is refused.
fn named(alloc: Global, lead: usize, text: &[u8], rest: &[u8]) -> Result<Target, FormRefusal>
    requires { rest.now ≡ spec.behind_name text.now }
    ensures { result ≢ Err FormRefusal.NoMemory → TableHead lead text.now result }
{
    let end = text.len().saturating_sub(rest.len());
    names_in(alloc, lead, HeadForm::Name, &text[..end])
}

/// A table from a file as a command.
fn from_file(table: Target, file: Label) -> Command
    ensures { Ok result ≡ spec.from_file table (Ok file) }
{
    let Target { path: _, name } = table;
    Command::Table { name, file }
}

/// What a name and the name of a file behind it say.
pub fn table(alloc: Global, lead: usize, text: &[u8]) -> Result<Command, FormRefusal>
    ensures { result ≢ Err FormRefusal.NoMemory → ReadsTable lead text.now result }
{
    let rest = behind_name(text);
    let target = match named(alloc, lead, text, rest) {
        Ok(target) => target,
        Err(refusal) => return Err(refusal),
    };
    let source = strip_spaces(rest);
    let Ok(start) = start_of(lead, text, source) else {
        return Err(FormRefusal::NoMemory);
    };
    match file(alloc, start, source) {
        Ok(name) => Ok(from_file(target, name)),
        Err(refusal) => Err(refusal),
    }
}
