//! What rows say.
ghost use Rattle.std.specs.Prelude.{IfOk};
ghost use Rattle.mx_engine_rows.specs.Rows.{IsFitCommand, IsFitEdit};

use mx_edit::edit::Edit;
use mx_parse::parse_node;
use mx_script::{Command, read_command};
use mx_value::node::Node;
use mx_words::table::WORDS;
use mx_words::text::word_length;
use std::alloc::{AllocError, Global};

/// Why a row says nothing.
#[derive(Drop)]
pub enum NoRow {
    /// A part of it is not of its form.
    Part,
    /// There was not enough memory.
    NoMemory,
}

impl From<AllocError> for NoRow {
    fn from(_error: AllocError) -> NoRow {
        NoRow::NoMemory
    }
}

/// The first word of a text, and what stands behind it.
pub fn first_word(text: &[u8]) -> (&[u8], &[u8]) {
    let (word, behind) = text.split_at(word_length(text));
    (word, behind.trim_ascii_start())
}

/// The node that a text says.
pub fn node(alloc: Global, text: &[u8]) -> Result<Node, NoRow> {
    match parse_node(alloc, text) {
        Ok(node) => Ok(node),
        Err(_) => Err(NoRow::Part),
    }
}

/// The command that a text says.
fn command(alloc: Global, text: &[u8]) -> Result<Command, NoRow>
    ensures { IfOk result IsFitCommand }
{
    mx_command_laws::edits::laws();
    mx_command_laws::commands::laws();
    match read_command(alloc, &WORDS, text) {
        Ok(command) => Ok(command),
        Err(_) => Err(NoRow::Part),
    }
}

/// The edit that a text says.
pub fn edit(alloc: Global, text: &[u8]) -> Result<Edit, NoRow>
    ensures { IfOk result IsFitEdit }
{
    match command(alloc, text)? {
        Command::Edit(edit) => Ok(edit),
        _ => Err(NoRow::Part),
    }
}
